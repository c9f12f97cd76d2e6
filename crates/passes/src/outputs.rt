// Paragraph 6 of "One cycle": the outputs, in one pass from the last action to the first, so that the first active one wins.
ghost use Rattle.std.specs.Prelude.{◌≡◌, ◌≤◌, min, length};
ghost use Rattle.passes.specs.Rests.{rests};
ghost use Rattle.passes.specs.Outputs.{written, driven};

use chart::Chart;

// Each output's first active action drives it; an output that none drives keeps what it had.
fn drive(out: &mut [i32], chart: &Chart, activity: u64)
    requires { 32 ≤ length out.old }
    ensures { out.new ≡ driven (min chart.now.actions 32) (rests 32 chart.now.output) chart.now.value activity out.old }
{
    for a in (0..chart.actions.min(32)).rev() {
        if sets::is_in_mod(activity, a) {
            let action = chart.action(a);
            out[action.output as usize % 32] = action.value;
        }
    }
}

// Where fewer than 32 are lent, none is written.
pub fn write_outputs(out: &mut [i32], chart: &Chart, activity: u64)
    ensures { out.new ≡ written (min chart.now.actions 32) (rests 32 chart.now.output) chart.now.value activity out.old }
{
    if out.len() < 32 {
        return;
    }
    out[..32].fill(0);
    drive(out, chart, activity);
}
