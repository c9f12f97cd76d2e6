// One cycle of a run that is lent, and changed where it lies; with an index (document 02, request ix), or without.
ghost use Rattle.std.specs.Prelude.{◌≡◌, length};
ghost use Rattle.cycle.specs.Answer.{cycled_as};
ghost use Rattle.cycle.specs.Cycling.{cycle_of, cycle_by, outputs_after};

use chart::Chart;
use cycle::Cycle;
use refusals::Refusal;
use run::Run;

// An empty list is no index. The reasons are those of the run as it was lent, so they are made first.
pub fn cycle_by(
    chart: &Chart,
    index: &[u64],
    run: &mut Run,
    clock: u32,
    inputs: u32,
    outputs: &mut [i32],
) -> Result<Cycle, Refusal>
    ensures answer { cycled_as result run.new ≡ cycle_by chart.now index.now run.old clock inputs (length outputs.old) }
    ensures written { outputs.new ≡ outputs_after chart.now (cycled_as result run.new) outputs.old }
{
    let reasons = passes::explain(chart, run, clock, inputs);
    let mut activities = [0u64];
    let went = stepping::cycles_on(
        chart,
        index,
        run,
        &[clock],
        &[inputs],
        &mut activities,
        outputs,
    )?;
    Ok(Cycle {
        taken: went.taken,
        reasons,
    })
}

pub fn cycle(
    chart: &Chart,
    run: &mut Run,
    clock: u32,
    inputs: u32,
    outputs: &mut [i32],
) -> Result<Cycle, Refusal>
    ensures answer { cycled_as result run.new ≡ cycle_of chart.now run.old clock inputs (length outputs.old) }
    ensures written { outputs.new ≡ outputs_after chart.now (cycled_as result run.new) outputs.old }
{
    cycle_by(chart, &[], run, clock, inputs, outputs)
}
