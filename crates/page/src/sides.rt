// What stands on either side of a transition: the steps of a set, and what they weigh together.
ghost use Rattle.std.specs.Prelude.{◌+◌, ◌≤◌, ◌++◌, length};
ghost use Rattle.sets.specs.Bytes.{Put};
ghost use Rattle.lines.specs.Lines.{text};
ghost use Rattle.page.specs.Sides.{step_at, steps_in, side};

use crate::page::LINE;

// A step's number behind a space, if it is in the set.
fn put_step(line: &mut [u8], at: usize, set: u64, k: usize) -> usize
    requires { at + 21 ≤ length line.old }
    ensures { Put line.old at (step_at set k) line.new result }
{
    if sets::is_in(set, k) {
        return lines::put_named(line, at, b" ", k as u64);
    }
    at
}

// 64 steps of three bytes at most, and the room that the last asks for.
fn put_steps(line: &mut [u8], at: usize, set: u64) -> usize
    requires { at + 212 ≤ length line.old }
    ensures { Put line.old at (steps_in set) line.new result }
{
    let mut end = at;
    for k in 0..64 {
        end = put_step(line, end, set, k);
    }
    end
}

pub(crate) fn put_side(line: &mut [u8], at: usize, name: &[u8], set: u64, weights: &[u16]) -> usize
    requires { at + (length name.now + 242) ≤ length line.old }
    ensures { Put line.old at (side name.now set weights.now) line.new result }
{
    let first = lines::put(line, at, name);
    let last = put_steps(line, first, set);
    let weight = tally::weight_in(set, weights);
    lines::put_named(line, last, b" weighing ", weight as u64)
}

// A line of it.
pub(crate) fn side_line(line: &mut [u8; LINE], name: &[u8], set: u64, weights: &[u16]) -> usize
    requires { length name.now ≤ 20 }
    ensures { Put line.old 0 (side name.now set weights.now ++ text "\n") line.new result }
{
    let end = put_side(line, 0, name, set, weights);
    lines::put(line, end, b"\n")
}
