// One cycle after the other where the run lies. A single cycle is a list of one, so that the compiler has one place for the step, and puts it there.
ghost use Rattle.std.specs.Prelude.{◌≡◌};
ghost use Rattle.cycle.specs.Calling.{calls_as, calls_by};

use crate::stepping;
use chart::Chart;
use cycle::{Stopped, Went};
use refusals::Refusal;
use run::Run;

// "11 elapsed time above 60,000 ms"
const MINUTE: u32 = 60_000;

// Clocks, inputs and activities are three lists, as document 02 and the C interface lend them.
// 15, the chart, the index and 12 are tested once, before the first: a run that an accepted cycle left passes them again. An empty list is no index.
pub fn cycles_on(
    chart: &Chart,
    index: &[u64],
    run: &mut Run,
    clocks: &[u32],
    inputs: &[u32],
    activities: &mut [u64],
    outputs: &mut [i32],
) -> Result<Went, Stopped>
    ensures { calls_as result run.new activities.new outputs.new ≡ calls_by chart.now index.now run.old clocks.now inputs.now activities.old outputs.old }
{
    cycle::ready(chart, index, run, outputs.len())?;
    let last = clocks.len().min(inputs.len()).min(activities.len());
    let mut taken = 0u64;
    for k in 0..last {
        if MINUTE < passes::elapsed(run.clock, clocks[k]) {
            return Err(Stopped {
                refusal: Refusal::TooLate,
                accepted: k,
            });
        }
        taken = stepping::step(chart, index, run, clocks[k], inputs[k], outputs);
        activities[k] = run.activity;
    }
    Ok(Went {
        accepted: last,
        taken,
    })
}
