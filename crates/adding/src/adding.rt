// The sum of two weighings, step by step.
ghost use Rattle.std.specs.Prelude.{◌≤◌, true, ◌≡◌, length};
ghost use Rattle.sets.specs.Loops.{all};
ghost use Rattle.chart.specs.Held.{chart_code};
ghost use Rattle.adding.specs.Answer.{added_from, which, place};
ghost use Rattle.adding.specs.Adding.{fits_at, unfit, sums, added_after, add_of, sum_after, sum_of};

use chart::Chart;
use refusals::Refusal;

// Why nothing is added: the chart or the lengths are refused, or the sum of this step, the first such, doesn't fit into 16 bits (21).
#[derive(Clone, Copy, Debug, PartialEq, Eq)]
pub enum Unadded {
    Refused(Refusal),
    TooLarge { step: usize },
}

impl From<Refusal> for Unadded {
    ghost use Rattle.adding.specs.declared.adding.Unadded.TheVariants.{Refused};

    ghost from_gives = { λ refusal unadded. unadded ≡ Refused refusal };

    fn from(refusal: Refusal) -> Unadded {
        Unadded::Refused(refusal)
    }
}

// Whether every sum fits: a pass without a branch.
fn all_fit(first: &[u16], second: &[u16]) -> bool
    requires { length first.now ≤ length second.now }
    ensures { result ≡ all (fits_at first.now second.now) (length first.now) }
{
    let mut fit = true;
    for k in 0..first.len() {
        fit &= first[k] as u32 + second[k] as u32 <= 65535;
    }
    fit
}

// The first step whose sum doesn't fit. It is looked for only where there is one.
fn unfit(first: &[u16], second: &[u16]) -> Option<usize>
    requires { length first.now ≤ length second.now }
    ensures { result ≡ place (unfit (length first.now) first.now second.now) }
{
    if all_fit(first, second) {
        return None;
    }
    first
        .iter()
        .zip(second)
        .position(|(a, b)| *a as u32 + *b as u32 > 65535)
}

fn write_sums(first: &[u16], second: &[u16], sum: &mut [u16])
    requires { (length sum.old ≤ length first.now) × (length sum.old ≤ length second.now) × (all (fits_at first.now second.now) (length sum.old) ≡ true) }
    ensures { sum.new ≡ sums (length sum.old) first.now second.now }
{
    for k in 0..sum.len() {
        sum[k] = first[k] + second[k];
    }
}

// Of a chart of so many steps that is not refused: the number alone, since the C interface hands the entry no more of the chart.
pub fn add_steps(n: usize, first: &[u16], second: &[u16], sum: &mut [u16]) -> Result<(), Unadded>
    ensures answer { (added_from result ≡ added_after 0 n first.now second.now (length sum.old)) × (sum.new ≡ sum_after 0 n first.now second.now sum.old) }
    ensures kind { which 0 result }
{
    if first.len() != n || second.len() != n || sum.len() != n {
        return Err(Unadded::Refused(Refusal::WrongWeights));
    }
    if let Some(step) = unfit(first, second) {
        return Err(Unadded::TooLarge { step });
    }
    write_sums(first, second, sum);
    Ok(())
}

pub fn add(chart: &Chart, first: &[u16], second: &[u16], sum: &mut [u16]) -> Result<(), Unadded>
    ensures answer { (added_from result ≡ add_of chart.now first.now second.now (length sum.old)) × (sum.new ≡ sum_of chart.now first.now second.now sum.old) }
    ensures kind { which (chart_code chart.now) result }
{
    chart.check()?;
    add_steps(chart.steps, first, second, sum)
}
