// The hold key, turned to hold or back. The number is a byte: the C interface.
ghost use Rattle.std.specs.Prelude.{◌≡◌};
ghost use Rattle.key.specs.Turning.{turned_as, turn_of};

use chart::Chart;
use run::Run;

#[unsafe(no_mangle)]
pub extern "C" fn tolwaziho_turn(chart: &Chart, run: &mut Run, held: bool) -> u8
    ensures { turned_as result run.new ≡ turn_of held chart.now run.old }
{
    let turned = if held {
        key::hold(chart, run)
    } else {
        key::release(chart, run)
    };
    refusals::code_of(turned)
}
