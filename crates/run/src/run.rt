// A run as it is kept, laid out as C lays out its struct tw_run, and changed where it lies. Step counters and action timers are two types: one is
// never handed over for the other. The hold mark is 1 while the key holds the run, else 0 (document 02, request vii).
ghost use Rattle.std.specs.Prelude.{◌≡◌};
ghost use Rattle.run.specs.Run.{no_run};

#[repr(C)]
#[derive(Clone, Copy)]
pub struct StepCounter(pub u32);

#[repr(C)]
#[derive(Clone, Copy)]
pub struct ActionTimer(pub u32);

#[repr(C)]
#[derive(Clone, Copy)]
pub struct Run {
    pub clock: u32,
    pub active: u64,
    pub activity: u64,
    pub stored: u64,
    pub latched: u64,
    pub counters: [StepCounter; 64],
    pub timers: [ActionTimer; 32],
    pub good: u64,
    pub bad: u64,
    pub hold: u8,
}

pub const LONGEST: u32 = 86_400_000;

impl Run {
    pub fn zero() -> Run
        ensures { result ≡ no_run }
    {
        Run {
            clock: 0,
            active: 0,
            activity: 0,
            stored: 0,
            latched: 0,
            counters: [StepCounter(0); 64],
            timers: [ActionTimer(0); 32],
            good: 0,
            bad: 0,
            hold: 0,
        }
    }
}
