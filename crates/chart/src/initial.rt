// A chart's initial steps, as a set.
ghost use Rattle.std.specs.Prelude.{◌≡◌};
ghost use Rattle.chart.specs.Initial.{initial_set};

use crate::chart::Chart;

impl Chart {
    // Of any number of steps that a caller holds: the table has no more.
    pub fn initial_set(&self) -> u64
        ensures { result ≡ initial_set self.now.steps self.now.initial }
    {
        let mut set = 0;
        for k in 0..self.steps.min(self.initial.len()) {
            set = sets::with_if(set, k, self.initial[k] == 1);
        }
        set
    }
}
