// What a text says, where the chart has it. It may say more than a chart holds, which the chart's own test refuses: a record is counted, and stored if
// the tables have its place.
ghost use Rattle.std.specs.Prelude.{◌≡◌, ◌<◌, ◌≤◌, ◌%◌, ◌^◌, set};
ghost use Rattle.chart.specs.Chart.{empty_chart, with_step, with_action, with_transition, with_block};
ghost use Rattle.grammar.specs.Answer.{with_all, reach};
ghost use Rattle.grammar.specs.Pen.{said_at};
ghost use Rattle.text.specs.Answer.{stray_of, pen_of};
ghost use Rattle.text.specs.Scan.{stray_in};

use crate::pen::Pen;
use crate::roles::{ACTED, NAMED, PASSED};
use chart::Chart;
use fields::{Action, Block, Transition};

fn put<T: Copy, const N: usize>(table: &mut [T; N], at: usize, x: T)
    ensures { table.new ≡ set table.old at x }
{
    if at < N {
        table[at] = x;
    }
}

fn low_byte(n: u32) -> u8
    ensures { result ≡ n % 256 }
{
    (n % 256) as u8
}

fn push_step(chart: &mut Chart, initial: u8)
    requires { chart.old.steps < 2 ^ 63 }
    ensures { chart.new ≡ with_step chart.old initial }
{
    put(&mut chart.initial, chart.steps, initial);
    chart.steps += 1;
}

pub(crate) fn push_action(chart: &mut Chart, action: Action)
    requires { chart.old.actions < 2 ^ 63 }
    ensures { chart.new ≡ with_action chart.old action.output action.value }
{
    put(&mut chart.output, chart.actions, action.output);
    put(&mut chart.value, chart.actions, action.value);
    chart.actions += 1;
}

fn push_transition(chart: &mut Chart, transition: Transition)
    requires { chart.old.transitions < 2 ^ 63 }
    ensures { chart.new ≡ with_transition chart.old transition.sources transition.targets transition.on transition.off transition.wait }
{
    let t = chart.transitions;
    put(&mut chart.sources, t, transition.sources);
    put(&mut chart.targets, t, transition.targets);
    put(&mut chart.on, t, transition.on);
    put(&mut chart.off, t, transition.off);
    put(&mut chart.wait, t, transition.wait);
    chart.transitions += 1;
}

fn push_block(chart: &mut Chart, block: Block)
    requires { chart.old.blocks < 2 ^ 63 }
    ensures { chart.new ≡ with_block chart.old block.step block.action block.qualifier block.duration }
{
    let i = chart.blocks;
    put(&mut chart.blockstep, i, block.step);
    put(&mut chart.blockaction, i, block.action);
    put(&mut chart.qualifier, i, block.qualifier);
    put(&mut chart.duration, i, block.duration);
    chart.blocks += 1;
}

// The chart that a text says so far, without its actions; how many these are; and the place of the first step that is not named by its number.
#[derive(Clone, Copy)]
pub struct Draft {
    pub stray: Option<usize>,
    pub actions: usize,
    pub chart: Chart,
}

impl Draft {
    pub(crate) fn new() -> Draft
        ensures { result ≡ record { stray = None; actions = 0; chart = empty_chart 1 } }
    {
        Draft {
            stray: None,
            actions: 0,
            chart: Chart::empty(1),
        }
    }

    // What a byte in a role says: a step that is named, a block, a transition, or nothing.
    #[tactic(auto, unfolding(grammar::specs::Answer::with_all, grammar::specs::Answer::reach))]
    pub(crate) fn say(&mut self, role: u8, pen: &Pen)
        requires { (self.old.actions ≤ 256) × (self.old.chart.steps < 2 ^ 63) × (self.old.chart.transitions < 2 ^ 63) × (self.old.chart.blocks < 2 ^ 63) }
        ensures stray { stray_of self.new.stray ≡ stray_in (stray_of self.old.stray) self.old.chart.steps (said_at role (pen_of pen.now)) }
        ensures actions { (self.new.actions ≡ reach self.old.actions (said_at role (pen_of pen.now))) × (self.new.actions ≤ 256) }
        ensures chart { self.new.chart ≡ with_all self.old.chart (said_at role (pen_of pen.now)) }
    {
        match role {
            NAMED => {
                if self.stray.is_none() && pen.number as usize != self.chart.steps {
                    self.stray = Some(pen.line.place);
                }
                push_step(&mut self.chart, pen.line.initial);
            }
            ACTED => {
                let block = Block {
                    step: low_byte(pen.line.own),
                    action: low_byte(pen.line.action),
                    qualifier: pen.line.qualifier,
                    duration: pen.number,
                };
                self.actions = self.actions.max(block.action as usize + 1);
                push_block(&mut self.chart, block);
            }
            PASSED => {
                let [sources, targets, on, off, _] = pen.settled();
                push_transition(
                    &mut self.chart,
                    Transition {
                        sources,
                        targets,
                        on,
                        off,
                        wait: 0,
                    },
                );
            }
            _ => {}
        }
    }
}
