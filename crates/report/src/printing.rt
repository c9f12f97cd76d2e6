// The printed run, a call's lines at a time: the caller keeps where the printing stands, and lends it again.
ghost use Rattle.std.specs.Prelude.{ℕ, false, ◌≤◌, ◌<◌, ◌++◌, ◌≡◌, length, get_or};
ghost use Rattle.sets.specs.Bytes.{Put};
ghost use Rattle.cycle.specs.Answer.{cycled_as, started_as};
ghost use Rattle.tally.specs.Answer.{tallied_of};
ghost use Rattle.trace.specs.Tracing.{call_at};
ghost use Rattle.report.specs.Answer.{printed_as};
ghost use Rattle.report.specs.Printing.{line_of, second_line, closing_line, number_at, opening, Prints, line_for, standing_for, printed_of, line_after};

use crate::wording;
use crate::wording::LINE;
use chart::Chart;
use cycle::Cycle;
use refusals::Refusal;
use run::Run;
use tally::Tally;
use trace::Call;

// The place of the next record and the run that it is given; done once the last line is out.
// The flag stands beside the other two, which then stay as they were: `print_next`'s clause says so (`printed_of`).
#[derive(Clone, Copy)]
pub struct Standing {
    pub done: bool,
    pub at: usize,
    pub run: Run,
}

pub fn opening() -> Standing
    ensures { result ≡ opening }
{
    Standing {
        done: false,
        at: 0,
        run: Run::zero(),
    }
}

// The call's number: the start takes 8 bytes of the trace, and each cycle 12.
fn number_at(at: usize) -> u64
    ensures { result ≡ number_at at }
{
    (at / 12 + (at % 12 + 4) / 12) as u64
}

// A start's line. A refused one leaves an all-zero run.
fn start_line(line: &mut [u8; LINE], number: u64, started: &Result<Run, Refusal>) -> usize
    ensures { Put line.old 0 (line_of number (started_as started.now)) line.new result × (result ≤ 64) }
{
    match started {
        Ok(run) => wording::accepted_line(line, number, run.active, run.activity, 0),
        Err(refusal) => wording::refused_line(line, number, *refusal),
    }
}

// A cycle's line, and behind it the reasons, if it was accepted and took nothing (document 02, request vi).
fn cycle_lines(
    line: &mut [u8; LINE],
    number: u64,
    transitions: usize,
    cycled: &Result<Cycle, Refusal>,
    run: &Run,
) -> usize
    requires { let o = cycled_as cycled.now run.now in (o.code ≡ 0 → transitions ≤ 64) × ((k : ℕ) → k < 64 → get_or o.reasons k 0 ≤ 7) }
    ensures { Put line.old 0 (line_of number (cycled_as cycled.now run.now) ++ second_line transitions (cycled_as cycled.now run.now)) line.new result × (result ≤ 129) }
{
    match cycled {
        Err(refusal) => wording::refused_line(line, number, *refusal),
        Ok(cycle) => {
            let length = wording::accepted_line(
                line,
                number,
                run.active,
                run.activity,
                cycle.taken,
            );
            if cycle.taken == 0 {
                return wording::reasons_line(line, length, transitions, &cycle.reasons);
            }
            length
        }
    }
}

fn closing_line(line: &mut [u8; LINE], number: u64, tallied: Result<Tally, Refusal>) -> usize
    ensures { Put line.old 0 (closing_line number (tallied_of tallied)) line.new result × (result ≤ 129) }
{
    match tallied {
        Ok(tally) => wording::tally_line(line, tally),
        Err(refusal) => wording::refused_line(line, number, refusal),
    }
}

fn print_call(chart: &Chart, trace: &[u8], standing: &mut Standing, line: &mut [u8; LINE]) -> usize
    requires { standing.old.done ≡ false }
    ensures { Prints line.old (line_for chart.now standing.old.at standing.old.run (call_at trace.now standing.old.at)) (standing_for chart.now standing.old.at standing.old.run (call_at trace.now standing.old.at)) line.new (printed_as result standing.new) }
{
    let number = number_at(standing.at);
    let mut outputs = [0i32; 32];
    match trace::call_at(trace, standing.at) {
        Ok(Some(Call::Start { clock })) => {
            let started = calls::start(chart, clock, &mut outputs);
            let length = start_line(line, number, &started);
            standing.at += 8;
            standing.run = started.unwrap_or(Run::zero());
            length
        }
        Ok(Some(Call::Cycle { clock, inputs })) => {
            let cycled = calls::cycle(chart, &mut standing.run, clock, inputs, &mut outputs);
            standing.at += 12;
            cycle_lines(line, number, chart.transitions, &cycled, &standing.run)
        }
        Ok(None) => {
            standing.done = true;
            closing_line(line, number, tally::tally(chart, &standing.run))
        }
        Err(_) => {
            standing.done = true;
            wording::trace_line(line)
        }
    }
}

// The next line of the run of a chart that was read with this number, with a cycle's second line behind it. A buffer of fewer than 129 bytes
// is refused: nothing moves, and nothing is printed.
// By any number: what may not change (this clause, printed_of).
pub fn print_next(
    code: u8,
    chart: &Chart,
    trace: &[u8],
    standing: &mut Standing,
    line: &mut [u8],
) -> usize
    ensures { (printed_as result standing.new ≡ printed_of (length line.old) code chart.now trace.now standing.old) × (line.new ≡ line_after code chart.now trace.now standing.old line.old) × (result ≤ length line.old) }
{
    let Some(front) = line.first_chunk_mut::<LINE>() else {
        return 0;
    };
    if standing.done {
        return 0;
    }
    if code != 0 {
        standing.done = true;
        return lines::chart_line(front, 0, code);
    }
    print_call(chart, trace, standing, front)
}
