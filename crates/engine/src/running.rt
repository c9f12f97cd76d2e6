// Start, cycle and shift on a run where it lies. A number of refusal is a byte, and answers are stored where they are lent: the C interface.
ghost use Rattle.std.specs.Prelude.{◌≡◌};
ghost use Rattle.cycle.specs.Cycling.{cycle_on_by};
ghost use Rattle.passes.specs.Explaining.{no_reasons};
ghost use Rattle.calls.specs.Lent.{Left, left};
ghost use Rattle.calls.specs.Starting.{start_on};
ghost use Rattle.shift.specs.Shifting.{shift_by};
ghost use Rattle.engine.specs.Lent.{ShiftLeft, shift_left};

use chart::Chart;
use run::Run;

// Field by field: what lies between the fields of C's struct belongs to none of them, and stays.
fn put(run: &mut Run, started: &Run)
    ensures { run.new ≡ started.now }
{
    run.clock = started.clock;
    run.active = started.active;
    run.activity = started.activity;
    run.stored = started.stored;
    run.latched = started.latched;
    run.counters = started.counters;
    run.timers = started.timers;
    run.good = started.good;
    run.bad = started.bad;
    run.hold = started.hold;
}

// Start: the number.
#[unsafe(no_mangle)]
pub extern "C" fn tolwaziho_start(
    chart: &Chart,
    run: &mut Run,
    clock: u32,
    outputs: &mut [i32],
) -> u8
    ensures { ◌≡◌ {A = Left} (result, 0, no_reasons, run.new, outputs.new) (left (start_on chart.now clock outputs.old)) }
{
    match calls::start(chart, clock, outputs) {
        Ok(started) => {
            put(run, &started);
            0
        }
        Err(refusal) => {
            put(run, &Run::zero());
            refusal.number()
        }
    }
}

// One cycle: the number, the transitions taken, and why each of the others is not. An empty list is no index.
#[unsafe(no_mangle)]
pub extern "C" fn tolwaziho_cycle(
    chart: &Chart,
    index: &[u64],
    run: &mut Run,
    clock: u32,
    inputs: u32,
    outputs: &mut [i32],
    taken: &mut u64,
    reasons: &mut [u8; 64],
) -> u8
    ensures { ◌≡◌ {A = Left} (result, taken.new, reasons.new, run.new, outputs.new) (left (cycle_on_by chart.now index.now run.old clock inputs outputs.old)) }
{
    match calls::cycle_by(chart, index, run, clock, inputs, outputs) {
        Ok(cycle) => {
            *taken = cycle.taken;
            let told = cycle.reasons;
            *reasons = told;
            0
        }
        Err(refusal) => {
            *taken = 0;
            *reasons = [0; 64];
            refusal.number()
        }
    }
}

// A shift: the number, and how many cycles were accepted. An empty list is no index.
#[unsafe(no_mangle)]
pub extern "C" fn tolwaziho_shift(
    chart: &Chart,
    index: &[u64],
    run: &mut Run,
    clocks: &[u32],
    inputs: &[u32],
    activities: &mut [u64],
    outputs: &mut [i32],
    accepted: &mut usize,
) -> u8
    ensures { ◌≡◌ {A = ShiftLeft} (result, accepted.new, run.new, activities.new, outputs.new) (shift_left (shift_by chart.now index.now run.old clocks.now inputs.now activities.old outputs.old)) }
{
    match shift::shift_by(chart, index, run, clocks, inputs, activities, outputs) {
        Ok(made) => {
            *accepted = made;
            0
        }
        Err(stopped) => {
            *accepted = stopped.accepted;
            stopped.refusal.number()
        }
    }
}
