// Paragraph 1 of "One cycle": elapsed time, and the growth of counters.
ghost use Rattle.std.specs.Prelude.{◌≡◌};
ghost use Rattle.run.specs.Apart.{counts_of};
ghost use Rattle.passes.specs.Time.{elapsed, step_time, grown_counts};

use run::Lasting;
use run::run::StepCounter;

pub fn elapsed(last: u32, new: u32) -> u32
    ensures { result ≡ elapsed last new }
{
    new.wrapping_sub(last)
}

// Under hold step counters stand still; action timers go by all that has elapsed. The mark is a byte: the C interface, where any may be lent.
pub fn step_time(hold: u8, e: u32) -> u32
    ensures { result ≡ step_time hold e }
{
    if hold == 1 { 0 } else { e }
}

// The counters of active steps grown beside where they lie, whatever they are: for the reasons, which are worked out before a run is tested.
pub(crate) fn grown(counters: &[StepCounter; 64], active: u64, e: u32) -> [StepCounter; 64]
    ensures { counts_of result ≡ grown_counts counters.now active e }
{
    let mut grown = [StepCounter(0); 64];
    for k in sets::each(active) {
        grown[k] = counters[k].longer(e);
    }
    grown
}
