// Paragraph 2 of "One cycle": which transitions are taken, in number order; under hold none (document 02, request vii).
ghost use Rattle.std.specs.Prelude.{◌≡◌, min};
ghost use Rattle.run.specs.Apart.{counts_of};
ghost use Rattle.choice.specs.Choice.{chosen_under, chosen_from};
ghost use Rattle.passes.specs.Choosing.{steps_of};

use acting::Steps;
use chart::Chart;
use choice::Choice;
use run::Run;

pub fn choose(chart: &Chart, run: &Run, signals: u64) -> Choice
    ensures { result ≡ chosen_under run.now.hold chart.now.edition (min chart.now.transitions 64) chart.now.sources chart.now.targets chart.now.on chart.now.off chart.now.wait (counts_of run.now.counters) run.now.active signals }
{
    let mut choice = Choice::none();
    if run.hold == 1 {
        return choice;
    }
    for t in 0..chart.transitions.min(64) {
        let transition = chart.transition(t);
        choice = choice::choose_one(
            chart.edition,
            choice,
            t,
            transition,
            &run.counters,
            run.active,
            signals,
        );
    }
    choice
}

// Of those that are consulted alone, which an index gives (document 02, request ix), in a run that is not held: a pass over the members of a set.
// Without an index the pass above takes fewer instructions.
pub fn choose_from(chart: &Chart, consulted: u64, run: &Run, signals: u64) -> Choice
    ensures { result ≡ chosen_from chart.now.edition consulted chart.now.sources chart.now.targets chart.now.on chart.now.off chart.now.wait (counts_of run.now.counters) run.now.active signals }
{
    let mut choice = Choice::none();
    for t in sets::each(consulted) {
        let transition = chart.transition(t);
        choice = choice::choose_one(
            chart.edition,
            choice,
            t,
            transition,
            &run.counters,
            run.active,
            signals,
        );
    }
    choice
}

// Paragraph 3: sources of taken transitions are left, targets entered unless they stayed active. Those that stayed run on.
pub fn steps_of(active: u64, choice: Choice) -> Steps
    ensures { result ≡ steps_of active choice }
{
    let stayed = sets::without(active, choice.left);
    Steps {
        active: sets::joined(stayed, choice.claimed),
        entered: sets::without(choice.claimed, stayed),
        left: choice.left,
        kept: stayed,
    }
}
