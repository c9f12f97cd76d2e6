// An index tested, and the transitions that a cycle consults by it.
ghost use Rattle.std.specs.Prelude.{◌^◌, min, true, ◌≡◌, eqb, ltb, length, get_or};
ghost use Rattle.sets.specs.Loops.{all};
ghost use Rattle.refusals.specs.Refusals.{code_of};
ghost use Rattle.chart.specs.Held.{chart_code};
ghost use Rattle.index.specs.Consulting.{is_index, index_after, consulted};

use crate::building;
use chart::Chart;
use refusals::Refusal;

// A pass without a branch: `==` of slices may stop at the first difference.
fn are_same(own: &[u64; 64], index: &[u64]) -> bool
    requires { length index.now ≡ 64 }
    ensures { result ≡ all (λ k. eqb (get_or index.now k 0) (get_or own.now k 0)) 64 }
{
    let mut same = true;
    for k in 0..64 {
        same &= index[k] == own[k];
    }
    same
}

// By a count and the table, as `leaving_of`.
fn is_index(n: usize, sources: &[u64; 64], index: &[u64]) -> bool
    ensures { (result ≡ is_index n sources.now index.now) × (result ≡ true → all (λ t. ltb (get_or sources.now t 0) (2 ^ 64)) (min n 64) ≡ true) }
{
    if index.len() != 64 {
        return false;
    }
    let own = building::leaving_of(n, sources);
    are_same(&own, index)
}

// The chart's number, then 20. An empty list is no index, and there is nothing to test.
pub fn check_index(chart: &Chart, index: &[u64]) -> Result<(), Refusal>
    ensures code { code_of result ≡ index_after (chart_code chart.now) chart.now.transitions chart.now.sources index.now }
    ensures words { code_of result ≡ 0 → (length index.now ≡ 0 → ⊥) → all (λ t. ltb (get_or chart.now.sources t 0) (2 ^ 64)) (min chart.now.transitions 64) ≡ true }
{
    chart.check()?;
    if index.is_empty() {
        return Ok(());
    }
    refusals::unless(
        is_index(chart.transitions, &chart.sources, index),
        Refusal::OtherIndex,
    )
}

// The transitions that leave some active step; without an index all, of n. No index is an empty list: the C interface lends a pointer and a length.
pub fn consulted(n: usize, index: &[u64], active: u64) -> u64
    ensures { result ≡ consulted n index.now active }
{
    if index.len() < 64 {
        return sets::without(u64::MAX, sets::beyond(n));
    }
    let mut leaving = 0;
    for k in sets::each(active) {
        leaving = sets::joined(leaving, index[k]);
    }
    leaving
}
