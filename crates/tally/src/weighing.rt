// The weighing of steps: sums over sources, targets and initial steps.
ghost use Rattle.std.specs.Prelude.{◌≡◌, cond, ◌+◌, ◌≤◌};
ghost use Rattle.tally.specs.Answer.{names_14, one_more, weighed_of};
ghost use Rattle.tally.specs.Weighing.{weight_in, unbalanced_in, weigh_of};

use crate::answer::Unweighed;
use chart::Chart;
use refusals::Refusal;

// A sum with one step more, if the step is in the set.
fn added(sum: u32, member: bool, weight: u16) -> u32
    requires { sum ≤ 4194240 }
    ensures { (result ≡ sum + cond member weight 0) × (result ≤ sum + 65535) }
{
    if member { sum + u32::from(weight) } else { sum }
}

// What the steps of a set weigh together: there are 64 at most, whatever the list.
pub fn weight_in(set: u64, weights: &[u16]) -> u32
    ensures { result ≡ weight_in weights.now set }
{
    let last = weights.len().min(64);
    let mut sum = 0u32;
    for k in 0..last {
        sum = added(sum, sets::is_in(set, k), weights[k]);
    }
    sum
}

// The number of the first unbalanced transition.
fn unbalanced(chart: &Chart, weights: &[u16]) -> Option<usize>
    requires { chart.now.transitions ≤ 64 }
    ensures { one_more result ≡ unbalanced_in chart.now weights.now }
{
    for t in 0..chart.transitions {
        if weight_in(chart.sources[t], weights) != weight_in(chart.targets[t], weights) {
            return Some(t);
        }
    }
    None
}

pub fn weigh(chart: &Chart, weights: &[u16]) -> Result<u32, Unweighed>
    ensures answer { weighed_of result ≡ weigh_of chart.now weights.now }
    ensures kind { names_14 result }
{
    chart.check()?;
    refusals::unless(weights.len() == chart.steps, Refusal::WrongWeights)?;
    if let Some(transition) = unbalanced(chart, weights) {
        return Err(Unweighed::Unbalanced { transition });
    }
    Ok(weight_in(chart.initial_set(), weights))
}
