// A chart as it is held: five counts, a table for each field of each kind, with the values of the file, and its edition (document 02, request viii).
// Laid out as C lays out its struct tw_chart, which C's callers lend as it lies: its parallel tables with their counts are the C interface, and fixed memory.
ghost use Rattle.std.specs.Prelude.{◌≡◌, ◌<◌, get_or, pos};
ghost use Rattle.chart.specs.Chart.{empty_chart, with_step, with_action, with_transition, with_block, with_case};

use fields::{Action, Block, Case, Transition};

#[repr(C)]
#[derive(Clone, Copy)]
pub struct Chart {
    pub steps: usize,
    pub actions: usize,
    pub transitions: usize,
    pub blocks: usize,
    pub cases: usize,
    pub initial: [u8; 64],
    pub output: [u8; 32],
    pub value: [i32; 32],
    pub sources: [u64; 64],
    pub targets: [u64; 64],
    pub on: [u64; 64],
    pub off: [u64; 64],
    pub wait: [u32; 64],
    pub blockstep: [u8; 256],
    pub blockaction: [u8; 256],
    pub qualifier: [u8; 256],
    pub duration: [u32; 256],
    pub casestep: [u8; 64],
    pub signal: [u8; 64],
    pub expected: [u8; 64],
    pub edition: u8,
}

impl Chart {
    // Of no record: what reading begins with.
    pub fn empty(edition: u8) -> Chart
        ensures { result ≡ empty_chart edition }
    {
        Chart {
            steps: 0,
            actions: 0,
            transitions: 0,
            blocks: 0,
            cases: 0,
            initial: [0; 64],
            output: [0; 32],
            value: [0; 32],
            sources: [0; 64],
            targets: [0; 64],
            on: [0; 64],
            off: [0; 64],
            wait: [0; 64],
            blockstep: [0; 256],
            blockaction: [0; 256],
            qualifier: [0; 256],
            duration: [0; 256],
            casestep: [0; 64],
            signal: [0; 64],
            expected: [0; 64],
            edition,
        }
    }

    // An entry of each kind, from its columns.
    pub fn action(&self, a: usize) -> Action
        requires { a < 32 }
        ensures { result ≡ record { output = get_or self.now.output a 0; value = get_or self.now.value a (pos 0) } }
    {
        Action {
            output: self.output[a],
            value: self.value[a],
        }
    }

    pub fn transition(&self, t: usize) -> Transition
        requires { t < 64 }
        ensures { result ≡ record { sources = get_or self.now.sources t 0; targets = get_or self.now.targets t 0; on = get_or self.now.on t 0; off = get_or self.now.off t 0; wait = get_or self.now.wait t 0 } }
    {
        Transition {
            sources: self.sources[t],
            targets: self.targets[t],
            on: self.on[t],
            off: self.off[t],
            wait: self.wait[t],
        }
    }

    pub fn block(&self, i: usize) -> Block
        requires { i < 256 }
        ensures { result ≡ record { step = get_or self.now.blockstep i 0; action = get_or self.now.blockaction i 0; qualifier = get_or self.now.qualifier i 0; duration = get_or self.now.duration i 0 } }
    {
        Block {
            step: self.blockstep[i],
            action: self.blockaction[i],
            qualifier: self.qualifier[i],
            duration: self.duration[i],
        }
    }

    pub fn case(&self, i: usize) -> Case
        requires { i < 64 }
        ensures { result ≡ record { step = get_or self.now.casestep i 0; signal = get_or self.now.signal i 0; expected = get_or self.now.expected i 0 } }
    {
        Case {
            step: self.casestep[i],
            signal: self.signal[i],
            expected: self.expected[i],
        }
    }

    // One more record of each kind.
    pub fn push_step(&mut self, initial: u8)
        requires { self.old.steps < 64 }
        ensures { self.new ≡ with_step self.old initial }
    {
        self.initial[self.steps] = initial;
        self.steps += 1;
    }

    pub fn push_action(&mut self, action: Action)
        requires { self.old.actions < 32 }
        ensures { self.new ≡ with_action self.old action.output action.value }
    {
        let a = self.actions;
        self.output[a] = action.output;
        self.value[a] = action.value;
        self.actions += 1;
    }

    pub fn push_transition(&mut self, transition: Transition)
        requires { self.old.transitions < 64 }
        ensures { self.new ≡ with_transition self.old transition.sources transition.targets transition.on transition.off transition.wait }
    {
        let t = self.transitions;
        self.sources[t] = transition.sources;
        self.targets[t] = transition.targets;
        self.on[t] = transition.on;
        self.off[t] = transition.off;
        self.wait[t] = transition.wait;
        self.transitions += 1;
    }

    pub fn push_block(&mut self, block: Block)
        requires { self.old.blocks < 256 }
        ensures { self.new ≡ with_block self.old block.step block.action block.qualifier block.duration }
    {
        let i = self.blocks;
        self.blockstep[i] = block.step;
        self.blockaction[i] = block.action;
        self.qualifier[i] = block.qualifier;
        self.duration[i] = block.duration;
        self.blocks += 1;
    }

    pub fn push_case(&mut self, case: Case)
        requires { self.old.cases < 64 }
        ensures { self.new ≡ with_case self.old case.step case.signal case.expected }
    {
        let i = self.cases;
        self.casestep[i] = case.step;
        self.signal[i] = case.signal;
        self.expected[i] = case.expected;
        self.cases += 1;
    }
}
