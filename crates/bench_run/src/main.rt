// bench-run: prints the run of the chart in chart.bin over the trace on standard input (document 01, "The printed run"; 02, request vi).
#![tactic(auto)]

use chart::Chart;
use report::wording::LINE;
use std::fs::Files;
use std::io::{Print, Read};

// Lines are gathered in a lent buffer (no heap), and written as it fills; a failed write ends the run.
fn print_run(rt: &impl Print, code: u8, chart: &Chart, trace: &[u8], out: &mut [u8]) {
    let mut standing = report::opening();
    let mut used = 0;
    // Until the last line is out: there is nothing to count.
    while !standing.done {
        used = console::written(rt, used, LINE, out);
        if out.len() - used < LINE {
            return;
        }
        used += report::print_next(code, chart, trace, &mut standing, &mut out[used..]);
    }
    // Nothing is printed behind these lines, so a failure changes nothing.
    let _ = rt.write_all(&out[..used]);
}

// Of either input the first 65,536 bytes decide: report's law `enough` says so of the trace, document 01 of the chart.
fn bench(
    rt: &(impl Files + Print),
    stdin: &mut impl Read,
    file: &mut [u8],
    input: &mut [u8],
    out: &mut [u8],
) {
    let n = console::read_chart_file(rt, file);
    let mut chart = Chart::empty(0);
    let reading = reader::read_into(&file[..n], &mut chart).map_err(|fault| fault.refusal);
    let code = refusals::code_of(reading);
    let m = console::read_full(stdin, input);
    print_run(rt, code, &chart, &input[..m], out);
}

fn main(rt: HostRuntime) {
    let mut file = [0; 65536];
    let mut input = [0; 65536];
    let mut out = [0; 65536];
    bench(&rt, &mut rt.stdin(), &mut file, &mut input, &mut out);
}
