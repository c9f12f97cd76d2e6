// The index of a chart, built once after reading: one pass over the transitions and their sources.
ghost use Rattle.std.specs.Prelude.{◌^◌, ◌<◌, min, true, ◌≡◌, ltb, get_or};
ghost use Rattle.sets.specs.Loops.{all};
ghost use Rattle.index.specs.Answer.{indexed_of};
ghost use Rattle.index.specs.Building.{entered_in, index_of, built_of};

use chart::Chart;
use refusals::Refusal;

// A transition goes into the words of its sources. That they are a word is what the type says: of a lent array's numbers no proof knows it.
fn enter(leaving: &mut [u64; 64], t: usize, sources: u64)
    ensures { (leaving.new ≡ entered_in leaving.old t sources) × (sources < 2 ^ 64) }
{
    for k in sets::each(sources) {
        leaving[k] = sets::with(leaving[k], t);
    }
}

// By a count and the table, as the C interface lends them. The second clause is `enter`'s, of all of them.
pub fn leaving_of(n: usize, sources: &[u64; 64]) -> [u64; 64]
    ensures { (result ≡ index_of n sources.now) × (all (λ t. ltb (get_or sources.now t 0) (2 ^ 64)) (min n 64) ≡ true) }
{
    let mut leaving = [0u64; 64];
    let last = n.min(64);
    for t in 0..last {
        enter(&mut leaving, t, sources[t]);
    }
    leaving
}

// "refused gives all zeros": a refusal brings no words, and who has to store some stores zeros.
pub fn index_of(chart: &Chart) -> Result<[u64; 64], Refusal>
    ensures { indexed_of result ≡ built_of chart.now }
{
    chart.check()?;
    Ok(leaving_of(chart.transitions, &chart.sources))
}
