// weigh_page: prints the page of a weighing, of the chart in chart.bin and of the weights on standard input (docs/DECISIONS.md, "The page of a weighing").
#![tactic(auto)]

ghost use Rattle.std.specs.Prelude.{◌≡◌};
ghost use Rattle.tally.specs.Answer.{weighed_of};
ghost use Rattle.page.specs.Answer.{weighed_as};

use chart::Chart;
use page::{Heard, LINE, LINES, Weighed};
use refusals::Refusal;
use std::fs::Files;
use std::io::{Print, Read};
use tally::Unweighed;

// Lines are gathered in a lent buffer (no heap), and written as it fills; a failed write ends the page.
fn print_page(rt: &impl Print, heard: &Heard, chart: &Chart, weights: &[u16], out: &mut [u8]) {
    let initial = chart.initial_set();
    let mut used = 0;
    for k in 0..LINES {
        used = console::written(rt, used, LINE, out);
        if out.len() - used < LINE {
            return;
        }
        used += page::page_line(heard, chart, initial, weights, k, &mut out[used..]);
    }
    // Nothing is printed behind these lines, so a failure changes nothing.
    let _ = rt.write_all(&out[..used]);
}

// The answer of the weighing, by numbers, as the page's lines take it.
fn told(answer: Result<u32, Unweighed>) -> Weighed
    ensures { weighed_as result ≡ weighed_of answer }
{
    let (code, transition, total) = match answer {
        Ok(total) => (0, 0, total),
        Err(Unweighed::Refused(refusal)) => (refusal.number(), 0, 0),
        Err(Unweighed::Unbalanced { transition }) => {
            (Refusal::Unbalanced.number(), transition, 0)
        }
    };
    Weighed {
        code,
        transition,
        total,
    }
}

// Of either input the first 65,536 bytes decide: page's law `enough` says so of the weights, document 01 of the chart.
fn weigh(
    rt: &(impl Files + Print),
    stdin: &mut impl Read,
    file: &mut [u8],
    input: &mut [u8],
    weights: &mut [u16],
    out: &mut [u8],
) {
    let n = console::read_chart_file(rt, file);
    let mut chart = Chart::empty(0);
    let reading = reader::read_into(&file[..n], &mut chart);
    let m = console::read_full(stdin, input);
    let list = weights::list(&input[..m], weights);
    let weights = &weights[..list.count];
    let heard = Heard {
        code: refusals::code_of(reading.map_err(|fault| fault.refusal)),
        length: m,
        fault: list.fault,
        weighed: told(tally::weigh(&chart, weights)),
    };
    print_page(rt, &heard, &chart, weights, out);
}

fn main(rt: HostRuntime) {
    let mut file = [0; 65536];
    let mut input = [0; 65536];
    let mut weights = [0u16; 65];
    let mut out = [0; 65536];
    weigh(
        &rt,
        &mut rt.stdin(),
        &mut file,
        &mut input,
        &mut weights,
        &mut out,
    );
}
