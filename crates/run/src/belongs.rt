// The test of a held run against its chart: "A run belongs to a chart if .."
ghost use Rattle.std.specs.Prelude.{◌≡◌};
ghost use Rattle.refusals.specs.Refusals.{code_of};
ghost use Rattle.run.specs.Belongs.{names_fit, belongs, own_code};

use crate::run::Run;
use crate::tables::fits;
use chart::Chart;
use refusals::Refusal;

impl Run {
    // Sets that have one limit are tested together.
    fn names_fit(&self, chart: &Chart) -> bool
        ensures { result ≡ names_fit chart.now.steps chart.now.actions chart.now.cases self.now.active self.now.activity self.now.stored self.now.latched self.now.good self.now.bad }
    {
        let of_actions = sets::joined(sets::joined(self.activity, self.stored), self.latched);
        sets::names_below(self.active, chart.steps)
            & sets::names_below(of_actions, chart.actions)
            & sets::names_below(sets::joined(self.good, self.bad), chart.cases)
    }

    pub fn belongs(&self, chart: &Chart) -> bool
        ensures { result ≡ belongs chart.now self.now }
    {
        self.names_fit(chart)
            & fits(&self.counters, self.active)
            & fits(&self.timers, self.latched % 4_294_967_296)
            & (self.hold <= 1)
    }

    // The chart's number, then 12.
    pub fn check(&self, chart: &Chart) -> Result<(), Refusal>
        ensures { code_of result ≡ own_code chart.now self.now }
    {
        chart.check()?;
        refusals::unless(self.belongs(chart), Refusal::OtherRun)
    }
}
