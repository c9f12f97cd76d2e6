// What a cycle answers, and the tests before it that its clock has no part in.
ghost use Rattle.std.specs.Prelude.{◌≡◌, true};
ghost use Rattle.refusals.specs.Refusals.{code_of};
ghost use Rattle.index.specs.Consulting.{consultable};
ghost use Rattle.cycle.specs.Cycling.{ready_by};

use chart::Chart;
use refusals::{Refusal, unless};
use run::Run;

// The transitions taken, and why each of 64 is not (document 02, request vi).
#[derive(Clone, Copy, Debug, PartialEq, Eq)]
pub struct Cycle {
    pub taken: u64,
    pub reasons: [u8; 64],
}

// 15, the chart, the index if one is lent, and 12. An index that was tested can be consulted.
pub fn ready(chart: &Chart, index: &[u64], run: &Run, lent: usize) -> Result<(), Refusal>
    ensures tests { code_of result ≡ ready_by chart.now index.now run.now lent }
    ensures consults { code_of result ≡ 0 → consultable chart.now.transitions chart.now.sources index.now ≡ true }
{
    unless(32 <= lent, Refusal::FewOutputs)?;
    index::check_index(chart, index)?;
    unless(run.belongs(chart), Refusal::OtherRun)
}
