// The lent run's cycle for programs in other languages, as a static library: for the tests.
#![tactic(auto)]

ghost use Rattle.std.specs.Prelude.{◌≡◌};
ghost use Rattle.cycle.specs.Cycling.{cycle_on};
ghost use Rattle.calls.specs.Lent.{Left, left};

use chart::Chart;
use run::Run;

// One cycle by document 01's lent run. The number is a byte, and answers are stored where they are lent: the C interface.
#[unsafe(no_mangle)]
pub extern "C" fn tolwaziho_advance(
    chart: &Chart,
    run: &mut Run,
    clock: u32,
    inputs: u32,
    outputs: &mut [i32],
    taken: &mut u64,
    reasons: &mut [u8; 64],
) -> u8
    ensures { ◌≡◌ {A = Left} (result, taken.new, reasons.new, run.new, outputs.new) (left (cycle_on chart.now run.old clock inputs outputs.old)) }
{
    match lent::advance(chart, run, clock, inputs, outputs) {
        Ok(cycle) => {
            *taken = cycle.taken;
            let told = cycle.reasons;
            *reasons = told;
            0
        }
        Err(refusal) => {
            *taken = 0;
            *reasons = [0; 64];
            refusal.number()
        }
    }
}
