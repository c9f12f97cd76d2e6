// A whole file: record after record into the chart, then what is tested at the end.
ghost use Rattle.std.specs.Prelude.{◌≡◌, ◌+◌, ◌≤◌, length, MatchResult};
ghost use Rattle.chart.specs.Chart.{empty_chart};
ghost use Rattle.refusals.specs.Refusals.{number};
ghost use Rattle.reader.specs.Framing.{body_length};
ghost use Rattle.reader.specs.Bodies.{body_at};
ghost use Rattle.reader.specs.Answer.{reading_in, reading_of};
ghost use Rattle.reader.specs.Reading.{refused, accepted, with_body, number_in, Takes, read_chart};

use crate::framing::Fault;
use crate::{bodies, framing};
use chart::Chart;
use fields::{Action, Block, Case, Transition};
use judging::Body;
use refusals::Refusal;

fn put(chart: &mut Chart, body: Body)
    requires { number_in chart.old body ≡ 0 }
    ensures { chart.new ≡ with_body chart.old body }
{
    match body {
        Body::Step { initial } => chart.push_step(initial),
        Body::Action { output, value } => chart.push_action(Action { output, value }),
        Body::Transition {
            sources,
            targets,
            on,
            off,
            wait,
        } => chart.push_transition(Transition {
            sources,
            targets,
            on,
            off,
            wait,
        }),
        Body::Block {
            step,
            action,
            qualifier,
            duration,
        } => chart.push_block(Block {
            step,
            action,
            qualifier,
            duration,
        }),
        Body::Case {
            step,
            signal,
            expected,
        } => chart.push_case(Case {
            step,
            signal,
            expected,
        }),
        Body::Edition { edition } => chart.edition = edition,
    }
}

// A record's body, judged and put in. It is made for each kind apart, where the compiler knows which body it is and asks no more.
#[inline(always)]
fn take(chart: &mut Chart, body: Body) -> Result<(), Refusal>
    ensures { Takes result chart.old chart.new body }
{
    body.check(chart)?;
    put(chart, body);
    Ok(())
}

fn take_at(bytes: &[u8], kind: u16, at: usize, chart: &mut Chart) -> Result<(), Refusal>
    requires { (1 ≤ kind) × (kind ≤ 6) × (at + body_length kind ≤ length bytes.now) }
    ensures { Takes result chart.old chart.new (body_at bytes.now kind at) }
{
    match kind {
        1 => take(chart, bodies::step_at(bytes, at)),
        2 => take(chart, bodies::action_at(bytes, at)),
        3 => take(chart, bodies::transition_at(bytes, at)),
        4 => take(chart, bodies::block_at(bytes, at)),
        5 => take(chart, bodies::case_at(bytes, at)),
        _ => take(chart, bodies::edition_at(bytes, at)),
    }
}

// Into an empty chart, in the first edition until a record says the second.
fn read_records(bytes: &[u8], chart: &mut Chart) -> Result<(), Fault>
    requires { chart.old ≡ empty_chart 1 }
    ensures { MatchResult result (λ u. accepted chart.new ≡ read_chart bytes.now) (λ e. refused (number e.refusal) e.place ≡ read_chart bytes.now) }
{
    let mut at = 0;
    let mut before = 0;
    while let Some(record) = framing::record_at(bytes, at, before)? {
        if let Err(refusal) = take_at(bytes, record.kind, record.place, chart) {
            return Err(Fault { refusal, place: at });
        }
        at = record.place + record.length;
        before = record.kind;
    }
    let end = at + 4;
    if end < bytes.len() {
        return Err(Fault {
            refusal: Refusal::Surplus,
            place: end,
        });
    }
    if let Err(refusal) = chart.check_whole() {
        return Err(Fault { refusal, place: 0 });
    }
    Ok(())
}

// Field by field: what lies between the fields of a struct that C lends belongs to none of them, and stays.
fn clear(chart: &mut Chart, edition: u8)
    ensures { chart.new ≡ empty_chart edition }
{
    chart.steps = 0;
    chart.actions = 0;
    chart.transitions = 0;
    chart.blocks = 0;
    chart.cases = 0;
    chart.initial = [0; 64];
    chart.output = [0; 32];
    chart.value = [0; 32];
    chart.sources = [0; 64];
    chart.targets = [0; 64];
    chart.on = [0; 64];
    chart.off = [0; 64];
    chart.wait = [0; 64];
    chart.blockstep = [0; 256];
    chart.blockaction = [0; 256];
    chart.qualifier = [0; 256];
    chart.duration = [0; 256];
    chart.casestep = [0; 64];
    chart.signal = [0; 64];
    chart.expected = [0; 64];
    chart.edition = edition;
}

// The chart may hold anything. "A refused reading returns an all-zero chart and a place"
pub fn read_into(bytes: &[u8], chart: &mut Chart) -> Result<(), Fault>
    ensures { reading_in result chart.new ≡ read_chart bytes.now }
{
    clear(chart, 1);
    let answer = read_records(bytes, chart);
    if answer.is_err() {
        clear(chart, 0);
    }
    answer
}

// The same by value.
pub fn read_chart(bytes: &[u8]) -> Result<Chart, Fault>
    ensures { reading_of result ≡ read_chart bytes.now }
{
    let mut chart = Chart::empty(1);
    read_records(bytes, &mut chart)?;
    Ok(chart)
}
