// A record's body as numbers, and judged.
#![tactic(auto)]

ghost use Rattle.std.specs.Prelude.{◌≡◌};
ghost use Rattle.refusals.specs.Refusals.{code_of};
ghost use Rattle.judging.specs.Judging.{limited, body_code};

use chart::Chart;
use fields::{Action, Block, Case, Transition};
use refusals::Refusal;

#[derive(Clone, Copy, Debug, PartialEq, Eq)]
pub enum Body {
    Step {
        initial: u8,
    },
    Action {
        output: u8,
        value: i32,
    },
    Transition {
        sources: u64,
        targets: u64,
        on: u64,
        off: u64,
        wait: u32,
    },
    Block {
        step: u8,
        action: u8,
        qualifier: u8,
        duration: u32,
    },
    Case {
        step: u8,
        signal: u8,
        expected: u8,
    },
    // The second (document 02, request viii).
    Edition {
        edition: u8,
    },
}

impl Body {
    // Read into a chart: one more of its kind than the limit (4), then its fields. Where the compiler knows which body it is, it asks no more.
    #[inline(always)]
    pub fn check(self, chart: &Chart) -> Result<(), Refusal>
        ensures { code_of result ≡ body_code chart.now.steps chart.now.actions chart.now.transitions chart.now.blocks chart.now.cases chart.now.edition self }
    {
        let steps = chart.steps;
        let actions = chart.actions;
        match self {
            Body::Step { initial } => {
                let fits = fields::step_fits(initial);
                limited(steps < 64, refusals::unless(fits, Refusal::BadField))
            }
            Body::Action { output, value } => {
                let fits = Action { output, value }.fits();
                limited(actions < 32, refusals::unless(fits, Refusal::BadField))
            }
            Body::Transition {
                sources,
                targets,
                on,
                off,
                wait,
            } => {
                let transition = Transition {
                    sources,
                    targets,
                    on,
                    off,
                    wait,
                };
                limited(chart.transitions < 64, transition.check(steps, actions))
            }
            Body::Block {
                step,
                action,
                qualifier,
                duration,
            } => {
                let block = Block {
                    step,
                    action,
                    qualifier,
                    duration,
                };
                let fits = block.fits(steps, actions);
                limited(
                    chart.blocks < 256,
                    refusals::unless(fits, Refusal::BadField),
                )
            }
            Body::Case {
                step,
                signal,
                expected,
            } => {
                let case = Case {
                    step,
                    signal,
                    expected,
                };
                let fits = case.fits(steps, actions);
                limited(chart.cases < 64, refusals::unless(fits, Refusal::BadField))
            }
            // In the edition so far.
            Body::Edition { edition } => {
                let fits = fields::is_second(edition);
                limited(chart.edition < 2, refusals::unless(fits, Refusal::BadField))
            }
        }
    }
}

fn limited(room: bool, answer: Result<(), Refusal>) -> Result<(), Refusal>
    ensures { code_of result ≡ limited room (code_of answer) }
{
    if room { answer } else { Err(Refusal::TooMany) }
}
