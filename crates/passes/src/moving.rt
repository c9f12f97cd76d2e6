// The signals of a cycle, and paragraph 3 of "One cycle": the marks of the cases on left steps.
ghost use Rattle.std.specs.Prelude.{◌≡◌, ◌%◌, min};
ghost use Rattle.passes.specs.Rests.{rests};
ghost use Rattle.passes.specs.Moving.{as_expected, marks_of, signals_of};

use chart::Chart;
use fields::Case;

#[derive(Clone, Copy, Debug, PartialEq, Eq)]
pub struct Marks {
    pub good: u64,
    pub bad: u64,
}

// Signals 0 to 31 are the inputs, signal 32 + k is the activity of action k.
pub fn signals_of(inputs: u32, activity: u64) -> u64
    ensures { result ≡ signals_of inputs activity }
{
    (inputs as u64) | (activity << 32)
}

fn as_expected(case: Case, signals: u64) -> bool
    ensures { result ≡ as_expected (case.signal % 64) case.expected signals }
{
    sets::is_in_mod(signals, case.signal as usize) == (case.expected == 1)
}

// Where nothing was left, as in most cycles and in all under hold, no case is looked at.
pub fn marks_of(chart: &Chart, left: u64, signals: u64) -> Marks
    ensures { result ≡ marks_of (min chart.now.cases 64) (rests 64 chart.now.casestep) (rests 64 chart.now.signal) chart.now.expected left signals }
{
    let mut good = 0u64;
    let mut bad = 0u64;
    if left == 0 {
        return Marks { good, bad };
    }
    for i in 0..chart.cases.min(64) {
        let case = chart.case(i);
        if sets::is_in_mod(left, case.step as usize) {
            let fine = as_expected(case, signals);
            good = sets::with_if_mod(good, i, fine);
            bad = sets::with_if_mod(bad, i, !fine);
        }
    }
    Marks { good, bad }
}
