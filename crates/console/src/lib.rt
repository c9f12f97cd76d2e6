// What the programs share: the chart's file is read, and what they print is gathered and written. The system's calls have contracts about lengths alone.
#![tactic(auto)]

ghost use Rattle.std.specs.Prelude.{◌≤◌, length};

use std::fs::{Files, open};
use std::io::{Print, Read};

// Reads until the space is full, the input ends or a read fails. How many bytes stand at the start of the space now. It is lent: no heap.
pub fn read_full(input: &mut impl Read, space: &mut [u8]) -> usize
    ensures { result ≤ length space.new }
{
    let mut done = 0;
    // As many as a read brings, so no step to count by.
    while done < space.len() {
        match input.read(&mut space[done..]) {
            Ok(0) | Err(_) => break,
            Ok(n) => done += n,
        }
    }
    done
}

// How many of the chart file's first bytes are in the space now. A file that can't be opened counts as empty.
pub fn read_chart_file(rt: &impl Files, space: &mut [u8]) -> usize
    ensures { result ≤ length space.new }
{
    match open(rt, "chart.bin") {
        Ok(mut file) => read_full(&mut file, space),
        Err(_) => 0,
    }
}

// Where there is no room for so many bytes more, writes what is gathered. Answers how much is gathered then: all of it still after a write that failed.
pub fn written(rt: &impl Print, used: usize, room: usize, out: &[u8]) -> usize
    ensures { result ≤ used }
{
    if out.len() < used {
        return used;
    }
    if room <= out.len() - used {
        return used;
    }
    match rt.write_all(&out[..used]) {
        Ok(()) => 0,
        Err(_) => used,
    }
}
