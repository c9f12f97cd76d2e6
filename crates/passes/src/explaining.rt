// Why each transition is not taken (document 02, request vi): a pass of its own before a single cycle, on the run as it lies, so that a cycle in a
// shift, which makes no reasons, costs what it did.
ghost use Rattle.std.specs.Prelude.{◌≡◌};
ghost use Rattle.choice.specs.Choice.{reasons_of};
ghost use Rattle.passes.specs.Time.{elapsed, step_time, grown_counts};
ghost use Rattle.passes.specs.Moving.{signals_of};

use crate::{moving, time};
use chart::Chart;
use run::Run;

// Of the run as it is before the cycle.
pub fn explain(chart: &Chart, run: &Run, clock: u32, inputs: u32) -> [u8; 64]
    ensures { result ≡ reasons_of run.now.hold chart.now.edition chart.now.transitions chart.now.sources chart.now.targets chart.now.on chart.now.off chart.now.wait (grown_counts run.now.counters run.now.active (step_time run.now.hold (elapsed run.now.clock clock))) run.now.active (signals_of inputs run.now.activity) }
{
    if run.hold == 1 {
        return choice::hold_all(chart.transitions);
    }
    let e = time::elapsed(run.clock, clock);
    let grown = time::grown(&run.counters, run.active, e);
    let signals = moving::signals_of(inputs, run.activity);
    choice::explain(chart, &grown, run.active, signals)
}
