// The key turned, to hold or back: the chart and the run are tested, and nothing of the run but its mark is changed, where it lies.
ghost use Rattle.std.specs.Prelude.{true, false, ◌≡◌};
ghost use Rattle.key.specs.Answer.{turned_by};
ghost use Rattle.key.specs.Turning.{turn_of};

use chart::Chart;
use refusals::Refusal;
use run::Run;

fn turn(chart: &Chart, run: &mut Run, held: bool) -> Result<(), Refusal>
    ensures { turned_by result run.new ≡ turn_of held chart.now run.old }
{
    run.check(chart)?;
    run.hold = u8::from(held);
    Ok(())
}

pub fn hold(chart: &Chart, run: &mut Run) -> Result<(), Refusal>
    ensures { turned_by result run.new ≡ turn_of true chart.now run.old }
{
    turn(chart, run, true)
}

pub fn release(chart: &Chart, run: &mut Run) -> Result<(), Refusal>
    ensures { turned_by result run.new ≡ turn_of false chart.now run.old }
{
    turn(chart, run, false)
}
