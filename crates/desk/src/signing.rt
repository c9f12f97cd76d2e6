// What the assessor signs: the tally, the weighing, and the sum of two. A number of refusal is a byte, and answers are stored where they are lent: the
// C interface.
ghost use Rattle.std.specs.Prelude.{◌≡◌, length};
ghost use Rattle.tally.specs.Tallying.{tally_of};
ghost use Rattle.tally.specs.Weighing.{weigh_of};
ghost use Rattle.adding.specs.Adding.{added_as, added_after, sum_after};
ghost use Rattle.desk.specs.Lent.{tallied_as, weighed_as};

use adding::Unadded;
use chart::Chart;
use refusals::Refusal;
use run::Run;
use tally::Unweighed;

// The tally: the number, and the cases passed, failed and not run.
#[unsafe(no_mangle)]
pub extern "C" fn tolwaziho_tally(
    chart: &Chart,
    run: &Run,
    passed: &mut usize,
    failed: &mut usize,
    notrun: &mut usize,
) -> u8
    ensures { tallied_as result passed.new failed.new notrun.new ≡ tally_of chart.now run.now }
{
    match tally::tally(chart, run) {
        Ok(tally) => {
            *passed = tally.passed;
            *failed = tally.failed;
            *notrun = tally.notrun;
            0
        }
        Err(refusal) => {
            *passed = 0;
            *failed = 0;
            *notrun = 0;
            refusal.number()
        }
    }
}

// The weighing: the number, the unbalanced transition that 14 names, and the initial total.
#[unsafe(no_mangle)]
pub extern "C" fn tolwaziho_weigh(
    chart: &Chart,
    weights: &[u16],
    transition: &mut usize,
    total: &mut u32,
) -> u8
    ensures { weighed_as result transition.new total.new ≡ weigh_of chart.now weights.now }
{
    *transition = 0;
    *total = 0;
    match tally::weigh(chart, weights) {
        Ok(initial) => {
            *total = initial;
            0
        }
        Err(Unweighed::Refused(refusal)) => refusal.number(),
        Err(Unweighed::Unbalanced { transition: first }) => {
            *transition = first;
            Refusal::Unbalanced.number()
        }
    }
}

// The sum, after the chart's own test, whose number is handed in: the number, the sum where it is lent, and the step that 21 names.
#[unsafe(no_mangle)]
pub extern "C" fn tolwaziho_add(
    held: u8,
    steps: usize,
    first: &[u16],
    second: &[u16],
    sum: &mut [u16],
    step: &mut usize,
) -> u8
    ensures added { added_as result step.new ≡ added_after held steps first.now second.now (length sum.old) }
    ensures sum { sum.new ≡ sum_after held steps first.now second.now sum.old }
{
    *step = 0;
    if held != 0 {
        return held;
    }
    match adding::add_steps(steps, first, second, sum) {
        Ok(()) => 0,
        Err(Unadded::Refused(refusal)) => refusal.number(),
        Err(Unadded::TooLarge { step: one }) => {
            *step = one;
            Refusal::SumTooLarge.number()
        }
    }
}
