// The lines of the page.
ghost use Rattle.std.specs.Prelude.{◌≤◌, ◌≡◌, length, get_or};
ghost use Rattle.sets.specs.Bytes.{Put};
ghost use Rattle.lines.specs.Lines.{Puts};
ghost use Rattle.page.specs.Answer.{weighed_as, heard_as};
ghost use Rattle.page.specs.Page.{transition_line, is_apart, pair_at, closing_line, is_refused, refusal_line, line_at, page_line};

use crate::sides;
use chart::Chart;

// The most that a line takes, with the room that its parts ask for.
pub const LINE: usize = 512;

// The most lines that a page has: a line for each transition, the one below them, and one for each pair of steps, i * 64 + j.
pub const LINES: usize = 4161;

// What the weighing answered: its number, the transition that it names with 14, and the initial total.
// By numbers, of which any may be told: what may not change (page_line's clause).
#[derive(Clone, Copy, Debug, PartialEq, Eq)]
pub struct Weighed {
    pub code: u8,
    pub transition: usize,
    pub total: u32,
}

// What the program heard: the number of the chart's reading, how long the text of the weights is, the place of its first faulty line, from 0 on, and what the
// weighing answered.
// By numbers, of which any may be told: what may not change (page_line's clause).
#[derive(Clone, Copy, Debug, PartialEq, Eq)]
pub struct Heard {
    pub code: u8,
    pub length: usize,
    pub fault: Option<usize>,
    pub weighed: Weighed,
}

fn transition_line(
    line: &mut [u8; LINE],
    t: usize,
    sources: u64,
    targets: u64,
    weights: &[u16],
) -> usize
    ensures { Put line.old 0 (transition_line t sources targets weights.now) line.new result × (result ≤ 512) }
{
    let from = lines::put_named(line, 0, b"transition ", t as u64);
    let to = sides::put_side(line, from, b" from", sources, weights);
    let end = sides::put_side(line, to, b" to", targets, weights);
    if tally::weight_in(sources, weights) == tally::weight_in(targets, weights) {
        return lines::put(line, end, b" equal\n");
    }
    lines::put(line, end, b" unequal\n")
}

// Two different steps that there are, and that together weigh more than the total.
fn is_apart(i: usize, j: usize, weights: &[u16], total: u32) -> bool
    ensures { result ≡ is_apart i j weights.now total }
{
    let weight = tally::weight_in(sets::with(sets::with(0, i), j), weights);
    i < j && j < weights.len() && total < weight
}

fn pair_line(line: &mut [u8; LINE], pair: usize, weights: &[u16], total: u32) -> usize
    ensures { Put line.old 0 (pair_at weights.now total pair) line.new result × (result ≤ 512) }
{
    let i = pair / 64;
    let j = pair % 64;
    if is_apart(i, j, weights, total) {
        let both = sets::with(sets::with(0, i), j);
        return sides::side_line(line, b"never together", both, weights);
    }
    0
}

fn closing_line(line: &mut [u8; LINE], initial: u64, weights: &[u16], weighed: Weighed) -> usize
    ensures { Put line.old 0 (closing_line initial weights.now (weighed_as weighed)) line.new result × (result ≤ 512) }
{
    if weighed.code == 0 {
        return sides::side_line(line, b"initial", initial, weights);
    }
    let transition = weighed.transition as u64;
    lines::put_line(line, 0, b"refused weights 14 transition ", transition)
}

// An entry of a table, 0 behind its end.
fn entry(table: &[u64], k: usize) -> u64
    ensures { result ≡ get_or table.now k 0 }
{
    table.get(k).copied().unwrap_or(0)
}

fn line_at(
    line: &mut [u8; LINE],
    chart: &Chart,
    initial: u64,
    weights: &[u16],
    weighed: Weighed,
    k: usize,
) -> usize
    ensures { Put line.old 0 (line_at chart.now.transitions chart.now.sources chart.now.targets initial weights.now (weighed_as weighed) k) line.new result × (result ≤ 512) }
{
    let n = chart.transitions;
    if k < n {
        let sources = entry(&chart.sources, k);
        let targets = entry(&chart.targets, k);
        return transition_line(line, k, sources, targets, weights);
    }
    if k == n {
        return closing_line(line, initial, weights, weighed);
    }
    if weighed.code == 0 {
        return pair_line(line, k - n - 1, weights, weighed.total);
    }
    0
}

fn is_refused(heard: &Heard) -> bool
    ensures { result ≡ is_refused (heard_as heard.now) }
{
    heard.code != 0 || 65536 <= heard.length || heard.fault.is_some() || heard.weighed.code == 13
}

fn refusal_line(line: &mut [u8; LINE], heard: &Heard) -> usize
    ensures { Put line.old 0 (refusal_line (heard_as heard.now)) line.new result × (result ≤ 512) }
{
    if heard.code != 0 {
        return lines::chart_line(line, 0, heard.code);
    }
    if 65536 <= heard.length {
        return lines::put(line, 0, b"refused weights too long\n");
    }
    if let Some(place) = heard.fault {
        let number = place.saturating_add(1);
        return lines::put_line(line, 0, b"refused weights line ", number as u64);
    }
    lines::put(line, 0, b"refused weights 13\n")
}

// Line k of the page at the front of a lent buffer, and its length; a buffer of fewer than 512 bytes gets nothing.
pub fn page_line(
    heard: &Heard,
    chart: &Chart,
    initial: u64,
    weights: &[u16],
    k: usize,
    line: &mut [u8],
) -> usize
    ensures { Puts 512 line.old 0 (page_line (heard_as heard.now) chart.now.transitions chart.now.sources chart.now.targets initial weights.now k) line.new result × (result ≤ length line.old) }
{
    let Some(front) = line.first_chunk_mut::<LINE>() else {
        return 0;
    };
    if !is_refused(heard) {
        return line_at(front, chart, initial, weights, heard.weighed, k);
    }
    if k == 0 {
        return refusal_line(front, heard);
    }
    0
}
