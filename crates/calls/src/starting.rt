// Start: the initial steps are active and entered, and paragraphs 4 to 6 are done; counters and timers are 0.
ghost use Rattle.std.specs.Prelude.{◌≡◌, length};
ghost use Rattle.cycle.specs.Answer.{started_as};
ghost use Rattle.cycle.specs.Cycling.{start_of, outputs_after};

use acting::Steps;
use chart::Chart;
use refusals::{Refusal, unless};
use run::Run;

pub fn start(chart: &Chart, clock: u32, outputs: &mut [i32]) -> Result<Run, Refusal>
    ensures answer { started_as result ≡ start_of chart.now clock (length outputs.old) }
    ensures written { outputs.new ≡ outputs_after chart.now (started_as result) outputs.old }
{
    unless(32 <= outputs.len(), Refusal::FewOutputs)?;
    chart.check()?;
    let first = chart.initial_set();
    let entered = Steps {
        active: first,
        entered: first,
        left: 0,
        kept: 0,
    };
    let mut run = Run::zero();
    let acts = stepping::settle(outputs, chart, &run.counters, &run.timers, entered, 0, 0);
    run.clock = clock;
    run.active = first;
    run.activity = acts.activity;
    run.stored = acts.stored;
    run.latched = acts.latched;
    Ok(run)
}
