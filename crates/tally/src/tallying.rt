// The cases of a run, counted from its marks.
ghost use Rattle.std.specs.Prelude.{◌≡◌};
ghost use Rattle.tally.specs.Answer.{tallied_of};
ghost use Rattle.tally.specs.Tallying.{tally_of};

use crate::answer::Tally;
use chart::Chart;
use refusals::Refusal;
use run::Run;

pub fn tally(chart: &Chart, run: &Run) -> Result<Tally, Refusal>
    ensures { tallied_of result ≡ tally_of chart.now run.now }
{
    run.check(chart)?;
    let ran = sets::size(sets::joined(run.good, run.bad));
    Ok(Tally {
        passed: sets::size(sets::without(run.good, run.bad)),
        failed: sets::size(run.bad),
        notrun: chart.cases - ran,
    })
}
