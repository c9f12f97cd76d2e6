// One cycle where the run lies: it is lent whole, and changed in place.
ghost use Rattle.std.specs.Prelude.{true, ◌≡◌, ◌≤◌, min, length};
ghost use Rattle.acting.specs.Acting.{asked, acted};
ghost use Rattle.choice.specs.Choice.{chosen_under};
ghost use Rattle.run.specs.Apart.{counts_of, times_of};
ghost use Rattle.run.specs.Belongs.{counters_fit, timers_fit};
ghost use Rattle.passes.specs.Outputs.{written};
ghost use Rattle.index.specs.Consulting.{consultable};
ghost use Rattle.cycle.specs.Bounds.{bounded};
ghost use Rattle.passes.specs.Rests.{rests};
ghost use Rattle.cycle.specs.Stepping.{all_kept, moved_on};

use acting::{Acted, Steps};
use chart::Chart;
use choice::Choice;
use run::Run;
use run::run::{ActionTimer, StepCounter};

// Paragraphs 4 to 6, which start and cycle share. The counters are those of the steps as they are now: all of them count.
pub fn settle(
    outputs: &mut [i32],
    chart: &Chart,
    counters: &[StepCounter; 64],
    timers: &[ActionTimer; 32],
    steps: Steps,
    stored: u64,
    latched: u64,
) -> Acted
    ensures acts { result ≡ acted (asked (min chart.now.blocks 256) (rests 64 chart.now.blockstep) (rests 32 chart.now.blockaction) chart.now.qualifier chart.now.duration (counts_of counters.now) (times_of timers.now) (all_kept steps)) stored latched }
    ensures writes { outputs.new ≡ written (min chart.now.actions 32) (rests 32 chart.now.output) chart.now.value result.activity outputs.old }
{
    let mut now = steps;
    now.kept = u64::MAX;
    let acts = acting::act(
        passes::ask_blocks(chart, counters, timers, now),
        stored,
        latched,
    );
    passes::write_outputs(outputs, chart, acts.activity);
    acts
}

// Paragraph 2. With an index only the transitions that leave some active step are consulted (document 02, request ix); a shorter list is none, and
// under hold none is asked.
fn choose_by(chart: &Chart, index: &[u64], run: &Run, signals: u64) -> Choice
    requires { consultable chart.now.transitions chart.now.sources index.now ≡ true }
    ensures { result ≡ chosen_under run.now.hold chart.now.edition (min chart.now.transitions 64) chart.now.sources chart.now.targets chart.now.on chart.now.off chart.now.wait (counts_of run.now.counters) run.now.active signals }
{
    if (index.len() < 64) | (run.hold == 1) {
        return passes::choose(chart, run, signals);
    }
    let consulted = index::consulted(chart.transitions, index, run.active);
    passes::choose_from(chart, consulted, run, signals)
}

// Paragraphs 1 to 6, of a run whose counters and timers are 0 where they do not run: the transitions taken. What is taken of a chart that passed no
// test, `bounded` says.
pub(crate) fn step(
    chart: &Chart,
    index: &[u64],
    run: &mut Run,
    clock: u32,
    inputs: u32,
    outputs: &mut [i32],
) -> u64
    requires room { 32 ≤ length outputs.old }
    requires counters { counters_fit run.old.counters run.old.active ≡ true }
    requires timers { timers_fit run.old.timers run.old.latched ≡ true }
    requires consults { consultable chart.now.transitions chart.now.sources index.now ≡ true }
    ensures { (result, run.new, outputs.new) ≡ moved_on (bounded chart.now) run.old clock inputs outputs.old }
{
    let e = passes::elapsed(run.clock, clock);
    let standing = passes::step_time(run.hold, e);
    run::grow(&mut run.counters, run.active, standing);
    run::grow(&mut run.timers, run.latched % 4_294_967_296, e);
    let signals = passes::signals_of(inputs, run.activity);
    let choice = choose_by(chart, index, run, signals);
    let moved = passes::steps_of(run.active, choice);
    run::clear(&mut run.counters, sets::without(run.active, moved.kept));
    let marks = passes::marks_of(chart, choice.left, signals);
    let acts = settle(
        outputs,
        chart,
        &run.counters,
        &run.timers,
        moved,
        run.stored,
        run.latched,
    );
    let freed = sets::without(run.latched, acts.latched);
    run::clear(&mut run.timers, freed % 4_294_967_296);
    run.clock = clock;
    run.active = moved.active;
    run.activity = acts.activity;
    run.stored = acts.stored;
    run.latched = acts.latched;
    run.good = sets::joined(run.good, marks.good);
    run.bad = sets::joined(run.bad, marks.bad);
    choice.taken
}
