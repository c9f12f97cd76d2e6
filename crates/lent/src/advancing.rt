// "this thin entry equals the cycle by value": the run is advanced whole, so no field of it plays a part here.
ghost use Rattle.std.specs.Prelude.{◌≡◌, length};
ghost use Rattle.cycle.specs.Answer.{cycled_as};
ghost use Rattle.cycle.specs.Cycling.{cycle_of, outputs_after};
ghost use Rattle.lent.specs.Advancing.{by_value};

use chart::Chart;
use cycle::Cycle;
use refusals::Refusal;
use run::Run;

// Document 01's lent run: its contract and the edits of this crate are of this function and the next, so they stay beside `calls::cycle`: what may not
// change.
pub fn advance(
    chart: &Chart,
    run: &mut Run,
    clock: u32,
    inputs: u32,
    outputs: &mut [i32],
) -> Result<Cycle, Refusal>
    ensures answer { cycled_as result run.new ≡ cycle_of chart.now run.old clock inputs (length outputs.old) }
    ensures written { outputs.new ≡ outputs_after chart.now (cycled_as result run.new) outputs.old }
{
    calls::cycle(chart, run, clock, inputs, outputs)
}

// The lent run for callers that hold it by value: no reference to a run stands in this contract. A refused cycle leaves the caller's.
pub fn lent_cycle(
    chart: &Chart,
    run: Run,
    clock: u32,
    inputs: u32,
    outputs: &mut [i32],
) -> Result<(Cycle, Run), Refusal>
    ensures answer { by_value run result ≡ cycle_of chart.now run clock inputs (length outputs.old) }
    ensures written { outputs.new ≡ outputs_after chart.now (by_value run result) outputs.old }
{
    let mut held = run;
    let cycle = advance(chart, &mut held, clock, inputs, outputs)?;
    Ok((cycle, held))
}
