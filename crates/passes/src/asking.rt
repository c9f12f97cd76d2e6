// Paragraph 4 of "One cycle": what the blocks ask of the actions, in one pass.
ghost use Rattle.std.specs.Prelude.{◌≡◌, min};
ghost use Rattle.run.specs.Apart.{counts_of, times_of};
ghost use Rattle.acting.specs.Acting.{asked};
ghost use Rattle.passes.specs.Rests.{rests};

use acting::{Asked, Steps};
use chart::Chart;
use run::run::{ActionTimer, StepCounter};

pub fn ask_blocks(
    chart: &Chart,
    counters: &[StepCounter; 64],
    timers: &[ActionTimer; 32],
    steps: Steps,
) -> Asked
    ensures { result ≡ asked (min chart.now.blocks 256) (rests 64 chart.now.blockstep) (rests 32 chart.now.blockaction) chart.now.qualifier chart.now.duration (counts_of counters.now) (times_of timers.now) steps }
{
    let mut asked = Asked::none();
    for i in 0..chart.blocks.min(256) {
        let block = chart.block(i);
        let request = acting::asks(
            block.step as usize,
            block.action as usize,
            block.qualifier,
            block.duration,
            counters,
            timers,
            steps,
        );
        asked = acting::put(asked, block.action as usize % 32, request);
    }
    asked
}
