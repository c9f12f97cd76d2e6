// The lines of the printed run, byte for byte, at the front of an array with room for each; what lies behind a line stays.
ghost use Rattle.std.specs.Prelude.{ℕ, ◌+◌, ◌≤◌, ◌<◌, length, get_or};
ghost use Rattle.sets.specs.Bytes.{Put};
ghost use Rattle.refusals.specs.Refusals.{number as refusal_number};
ghost use Rattle.report.specs.Wording.{accepted_line, refused_line, reasons_line, trace_line, tally_line};

use refusals::Refusal;
use tally::Tally;

// The most that one call prints: the line of an accepted cycle, 64 bytes, and behind it 64 digits and a line end.
pub const LINE: usize = 129;

pub(crate) fn accepted_line(
    line: &mut [u8; LINE],
    number: u64,
    active: u64,
    activity: u64,
    taken: u64,
) -> usize
    ensures { Put line.old 0 (accepted_line number active activity taken) line.new result × (result ≤ 64) }
{
    let a = lines::put_decimal(line, 0, number);
    let b = lines::put_word(line, a, 16, active);
    let c = lines::put_word(line, b, 8, activity);
    let d = lines::put_word(line, c, 16, taken);
    lines::put(line, d, b"\n")
}

pub(crate) fn refused_line(line: &mut [u8; LINE], number: u64, refusal: Refusal) -> usize
    ensures { Put line.old 0 (refused_line number (refusal_number refusal)) line.new result × (result ≤ 64) }
{
    let code = refusal.number();
    let a = lines::put_decimal(line, 0, number);
    let b = lines::put_named(line, a, b" refused ", code as u64);
    lines::put(line, b, b"\n")
}

// A digit for each of the first n reasons, and the line end: the table has 64 bytes, as in the C interface, and the chart tells how many count.
pub(crate) fn reasons_line(line: &mut [u8], at: usize, n: usize, reasons: &[u8; 64]) -> usize
    requires { (at + (n + 1) ≤ length line.old) × (n ≤ 64) × ((k : ℕ) → k < 64 → get_or reasons.now k 0 ≤ 7) }
    ensures { Put line.old at (reasons_line n reasons.now) line.new result }
{
    for t in 0..n {
        line[at + t] = lines::digit(reasons[t] as u64);
    }
    lines::put(line, at + n, b"\n")
}

pub(crate) fn trace_line(line: &mut [u8; LINE]) -> usize
    ensures { Put line.old 0 trace_line line.new result × (result ≤ 129) }
{
    lines::put(line, 0, b"refused trace 16\n")
}

pub(crate) fn tally_line(line: &mut [u8; LINE], tally: Tally) -> usize
    ensures { Put line.old 0 (tally_line tally.passed tally.failed tally.notrun) line.new result × (result ≤ 129) }
{
    let a = lines::put_named(line, 0, b"passed ", tally.passed as u64);
    let b = lines::put_named(line, a, b" failed ", tally.failed as u64);
    let c = lines::put_named(line, b, b" notrun ", tally.notrun as u64);
    lines::put(line, c, b"\n")
}
