// The cycles of a shift: the run is changed where it lies, and the chart and the run are tested once, before the first.
ghost use Rattle.std.specs.Prelude.{◌≡◌};
ghost use Rattle.refusals.specs.Refusals.{code_of};
ghost use Rattle.shift.specs.Answer.{shifted_as};
ghost use Rattle.shift.specs.Shifting.{lists_code, shift_of, shift_by};

use chart::Chart;
use cycle::Stopped;
use refusals::{Refusal, unless};
use run::Run;

// 18 unless the three lists have one length, of a shift at most.
pub fn check_lists(clocks: usize, inputs: usize, activities: usize) -> Result<(), Refusal>
    ensures { code_of result ≡ lists_code clocks inputs activities }
{
    let fit = (clocks == inputs) & (clocks == activities) & (clocks <= 4096);
    unless(fit, Refusal::UnevenLists)
}

// With an index (document 02, request ix), which is tested once; an empty list is none. How many cycles were accepted, all of them.
pub fn shift_by(
    chart: &Chart,
    index: &[u64],
    run: &mut Run,
    clocks: &[u32],
    inputs: &[u32],
    activities: &mut [u64],
    outputs: &mut [i32],
) -> Result<usize, Stopped>
    ensures { shifted_as result run.new activities.new outputs.new ≡ shift_by chart.now index.now run.old clocks.now inputs.now activities.old outputs.old }
{
    if let Err(refusal) = check_lists(clocks.len(), inputs.len(), activities.len()) {
        // 15, the chart, the index and 12 come before 18.
        cycle::ready(chart, index, run, outputs.len())?;
        return Err(Stopped::from(refusal));
    }
    let went = stepping::cycles_on(chart, index, run, clocks, inputs, activities, outputs)?;
    Ok(went.accepted)
}

pub fn shift(
    chart: &Chart,
    run: &mut Run,
    clocks: &[u32],
    inputs: &[u32],
    activities: &mut [u64],
    outputs: &mut [i32],
) -> Result<usize, Stopped>
    ensures { shifted_as result run.new activities.new outputs.new ≡ shift_of chart.now run.old clocks.now inputs.now activities.old outputs.old }
{
    shift_by(chart, &[], run, clocks, inputs, activities, outputs)
}
