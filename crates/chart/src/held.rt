// The test of a chart that a caller held and may have altered: 4, then records by kind with 5, 6, 7, the edition's 5, then 9, 8.
// Every call of the engine makes it, so its passes have no branch on what an entry is, and join with `&` and `|`: only where a transition is refused
// are they gone through again, for the first number, and blocks of which none is timed are passed over by sixteen.
ghost use Rattle.std.specs.Prelude.{◌≡◌, ◌+◌, ◌≤◌, length, get_or};
ghost use Rattle.refusals.specs.Refusals.{code_of};
ghost use Rattle.sets.specs.Loops.{all, some};
ghost use Rattle.fields.specs.Fields.{timed};
ghost use Rattle.chart.specs.Held.{limits_fit, largest, actions_code, transition_passes_at, transitions_code, block_names_at, duration_fits_at, blocks_code, cases_code, some_initial, timed_among, Seen, timed_twice, closing_code, chart_code};

use crate::chart::Chart;
use refusals::Refusal;

// The largest of some bytes, 0 if there are none: a limit that it keeps, they all keep.
fn largest(table: &[u8]) -> u8
    ensures { result ≡ largest (length table.now) table.now }
{
    let mut most = 0u8;
    for x in table {
        most = most.max(*x);
    }
    most
}

impl Chart {
    fn in_limits(&self) -> bool
        ensures { result ≡ limits_fit self.now.steps self.now.actions self.now.transitions self.now.blocks self.now.cases }
    {
        (self.steps <= 64)
            & (self.actions <= 32)
            & (self.transitions <= 64)
            & (self.blocks <= 256)
            & (self.cases <= 64)
    }

    fn largest_mark(&self) -> u8
        requires { self.now.steps ≤ 64 }
        ensures { result ≡ largest self.now.steps self.now.initial }
    {
        largest(&self.initial[..self.steps])
    }

    fn check_actions(&self) -> Result<(), Refusal>
        requires { self.now.actions ≤ 32 }
        ensures { code_of result ≡ actions_code self.now.actions self.now.output }
    {
        let output = largest(&self.output[..self.actions]);
        refusals::unless(fields::action_fits(output), Refusal::BadField)
    }

    fn transitions_pass(&self) -> bool
        requires { self.now.transitions ≤ 64 }
        ensures { result ≡ all (transition_passes_at self.now.steps self.now.actions self.now.sources self.now.targets self.now.on self.now.off self.now.wait) self.now.transitions }
    {
        let mut pass = true;
        for t in 0..self.transitions {
            pass = pass & self.transition(t).passes(self.steps, self.actions);
        }
        pass
    }

    // Which transition is the first refused is asked only where one is.
    fn check_transitions(&self) -> Result<(), Refusal>
        requires { self.now.transitions ≤ 64 }
        ensures { code_of result ≡ transitions_code self.now.transitions self.now.steps self.now.actions self.now.sources self.now.targets self.now.on self.now.off self.now.wait }
    {
        if self.transitions_pass() {
            return Ok(());
        }
        for t in 0..self.transitions {
            self.transition(t).check(self.steps, self.actions)?;
        }
        Ok(())
    }

    // Bytes compared as bytes: the compiler makes vectors of this pass, and of the next.
    fn block_names_fit(&self) -> bool
        requires { (self.now.blocks ≤ 256) × (self.now.steps ≤ 64) × (self.now.actions ≤ 32) }
        ensures { result ≡ all (block_names_at self.now.steps self.now.actions self.now.blockstep self.now.blockaction self.now.qualifier) self.now.blocks }
    {
        let steps = self.steps as u8;
        let actions = self.actions as u8;
        let mut fit = true;
        for i in 0..self.blocks {
            fit = fit
                & (self.blockstep[i] < steps)
                & (self.blockaction[i] < actions)
                & (self.qualifier[i] <= 10);
        }
        fit
    }

    fn durations_fit(&self) -> bool
        requires { self.now.blocks ≤ 256 }
        ensures { result ≡ all (duration_fits_at self.now.qualifier self.now.duration) self.now.blocks }
    {
        let mut fit = true;
        for i in 0..self.blocks {
            fit = fit & fields::duration_fits(self.qualifier[i], self.duration[i]);
        }
        fit
    }

    fn check_blocks(&self) -> Result<(), Refusal>
        requires { (self.now.blocks ≤ 256) × (self.now.steps ≤ 64) × (self.now.actions ≤ 32) }
        ensures { code_of result ≡ blocks_code self.now.blocks self.now.steps self.now.actions self.now.blockstep self.now.blockaction self.now.qualifier self.now.duration }
    {
        let fit = self.block_names_fit() & self.durations_fit();
        refusals::unless(fit, Refusal::BadField)
    }

    // A Bool for each column: of one for all three the compiler makes something twice as long.
    fn check_cases(&self) -> Result<(), Refusal>
        requires { (self.now.cases ≤ 64) × (self.now.steps ≤ 64) × (self.now.actions ≤ 32) }
        ensures { code_of result ≡ cases_code self.now.cases self.now.steps self.now.actions self.now.casestep self.now.signal self.now.expected }
    {
        let steps = self.steps as u8;
        let signals = 32 + self.actions as u8;
        let mut named = true;
        let mut heard = true;
        let mut fit = true;
        for i in 0..self.cases {
            named = named & (self.casestep[i] < steps);
            heard = heard & (self.signal[i] < signals);
            fit = fit & (self.expected[i] <= 1);
        }
        refusals::unless(named & heard & fit, Refusal::BadField)
    }

    fn some_initial(&self) -> bool
        ensures { result ≡ some_initial self.now.steps self.now.initial }
    {
        let mut any = false;
        for i in 0..self.steps.min(self.initial.len()) {
            any = any | (self.initial[i] == 1);
        }
        any
    }

    // Whether one of sixteen blocks is timed: the compiler makes a vector of them.
    fn some_timed(&self, at: usize) -> bool
        requires { at ≤ 240 }
        ensures { result ≡ some (λ k. timed (get_or self.now.qualifier (at + k) 0)) 16 }
    {
        let mut any = false;
        for k in 0..16 {
            any = any | fields::is_timed(self.qualifier[at + k]);
        }
        any
    }

    // Which of the blocks from a place on are timed, as a set: number k + 1 for block at + k, since the compiler makes vectors only of sixteen shifts
    // alike, and a shift by 0 is none. Half a word takes half as many.
    fn timed_among(&self, at: usize, left: usize) -> u32
        requires { (at ≤ 240) × (left ≤ 16) }
        ensures { result ≡ timed_among at left self.now.qualifier }
    {
        let mut among = 0u32;
        for k in 0..16 {
            among = among | (fields::is_timed(self.qualifier[at + k]) as u32) << (k + 1);
        }
        among % (2 << left)
    }

    // Of the blocks from a place on only the timed ones are visited.
    fn see_timed(&self, at: usize, left: usize, twice: bool, seen: &mut [bool; 256]) -> bool
        requires { (at ≤ 240) × (left ≤ 16) × Seen self.now.blockaction self.now.qualifier seen.old twice at }
        ensures { Seen self.now.blockaction self.now.qualifier seen.new result (at + left) }
    {
        let mut again = twice;
        for k in sets::each(self.timed_among(at, left) as u64) {
            let a = self.blockaction[at + k - 1] as usize;
            again = again | seen[a];
            seen[a] = true;
        }
        again
    }

    // A chart has at most one timed block for each action, so that many sixteens have none. A count beyond the table is as good as its length.
    fn timed_twice(&self) -> bool
        ensures { result ≡ timed_twice self.now.blocks self.now.blockaction self.now.qualifier }
    {
        let n = self.blocks.min(self.qualifier.len());
        let mut seen = [false; 256];
        let mut twice = false;
        for sixteen in 0..n.div_ceil(16) {
            let at = 16 * sixteen;
            if self.some_timed(at) {
                twice = self.see_timed(at, (n - at).min(16), twice, &mut seen);
            }
        }
        twice
    }

    // What is tested once the records are done: no initial step (9), two timed blocks for one action (8).
    pub fn check_whole(&self) -> Result<(), Refusal>
        ensures { code_of result ≡ closing_code self.now.steps self.now.blocks self.now.initial self.now.blockaction self.now.qualifier }
    {
        refusals::unless(self.some_initial(), Refusal::NoInitial)?;
        refusals::unless(!self.timed_twice(), Refusal::TimedTwice)
    }

    // Where no mark of a step is above 1, the largest tells whether one is initial.
    pub fn check(&self) -> Result<(), Refusal>
        ensures { code_of result ≡ chart_code self.now }
    {
        refusals::unless(self.in_limits(), Refusal::TooMany)?;
        let mark = self.largest_mark();
        refusals::unless(fields::step_fits(mark), Refusal::BadField)?;
        self.check_actions()?;
        self.check_transitions()?;
        self.check_blocks()?;
        self.check_cases()?;
        refusals::unless(fields::edition_fits(self.edition), Refusal::BadField)?;
        refusals::unless(mark == 1, Refusal::NoInitial)?;
        refusals::unless(!self.timed_twice(), Refusal::TimedTwice)
    }
}
