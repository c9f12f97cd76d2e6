// At the end of a text: the actions, the chart's own test, and the answer.
ghost use Rattle.std.specs.Prelude.{◌≡◌, ◌≤◌};
ghost use Rattle.grammar.specs.Answer.{with_actions};
ghost use Rattle.reader.specs.Answer.{reading_of};
ghost use Rattle.text.specs.Answer.{stray_of};
ghost use Rattle.text.specs.Scan.{finished};

use crate::saying;
use crate::saying::Draft;
use chart::Chart;
use fields::Action;
use reader::Fault;
use refusals::Refusal;

// "action k drives output k with 1"
fn push_actions(chart: &mut Chart, n: usize)
    requires { (n ≤ 256) × (chart.old.actions ≡ 0) }
    ensures { chart.new ≡ with_actions chart.old n }
{
    for k in 0..n {
        let action = Action {
            output: k as u8,
            value: 1,
        };
        saying::push_action(chart, action);
    }
}

impl Draft {
    pub(crate) fn finish(&mut self) -> Result<Chart, Fault>
        requires { (self.old.actions ≤ 256) × (self.old.chart.actions ≡ 0) }
        ensures { reading_of result ≡ finished (stray_of self.old.stray) self.old.actions self.old.chart }
    {
        if let Some(place) = self.stray {
            return Err(Fault {
                refusal: Refusal::OutOfOrder,
                place,
            });
        }
        push_actions(&mut self.chart, self.actions);
        if let Err(refusal) = self.chart.check() {
            return Err(Fault { refusal, place: 0 });
        }
        Ok(self.chart)
    }
}
