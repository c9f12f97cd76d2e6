// A chart's file: the records of each kind, then the end record. One pass over each kind's tables.
ghost use Rattle.std.specs.Prelude.{true, ◌≡◌, List, ℕ, ◌+◌, ◌-◌, ◌*◌, ◌≤◌, length};
ghost use Rattle.sets.specs.Bytes.{Put};
ghost use Rattle.fields.specs.Fields.{edition_fits};
ghost use Rattle.writer.specs.Answer.{Writing, writing_of};
ghost use Rattle.writer.specs.Writing.{step_records, action_records, transition_records, block_records, case_records, edition_records, file_length, write_chart};

use crate::records;
use chart::Chart;
use refusals::Refusal;

fn put_steps(chart: &Chart, bytes: &mut [u8], at: usize) -> usize
    requires { (chart.now.steps ≤ 64) × (at + 5 * chart.now.steps ≤ length bytes.old) }
    ensures { Put bytes.old at (step_records chart.now) bytes.new result }
{
    let mut end = at;
    for i in 0..chart.steps {
        end = records::put_step(bytes, end, chart.initial[i]);
    }
    end
}

fn put_actions(chart: &Chart, bytes: &mut [u8], at: usize) -> usize
    requires { (chart.now.actions ≤ 32) × (at + 9 * chart.now.actions ≤ length bytes.old) }
    ensures { Put bytes.old at (action_records chart.now) bytes.new result }
{
    let mut end = at;
    for a in 0..chart.actions {
        end = records::put_action(bytes, end, chart.action(a));
    }
    end
}

fn put_transitions(chart: &Chart, bytes: &mut [u8], at: usize) -> usize
    requires { (chart.now.transitions ≤ 64) × (at + 40 * chart.now.transitions ≤ length bytes.old) }
    ensures { Put bytes.old at (transition_records chart.now) bytes.new result }
{
    let mut end = at;
    for t in 0..chart.transitions {
        end = records::put_transition(bytes, end, chart.transition(t));
    }
    end
}

fn put_blocks(chart: &Chart, bytes: &mut [u8], at: usize) -> usize
    requires { (chart.now.blocks ≤ 256) × (at + 11 * chart.now.blocks ≤ length bytes.old) }
    ensures { Put bytes.old at (block_records chart.now) bytes.new result }
{
    let mut end = at;
    for i in 0..chart.blocks {
        end = records::put_block(bytes, end, chart.block(i));
    }
    end
}

fn put_cases(chart: &Chart, bytes: &mut [u8], at: usize) -> usize
    requires { (chart.now.cases ≤ 64) × (at + 7 * chart.now.cases ≤ length bytes.old) }
    ensures { Put bytes.old at (case_records chart.now) bytes.new result }
{
    let mut end = at;
    for i in 0..chart.cases {
        end = records::put_case(bytes, end, chart.case(i));
    }
    end
}

// The second edition has a record, the first has none (document 02, request viii).
fn put_edition(chart: &Chart, bytes: &mut [u8], at: usize) -> usize
    requires { (edition_fits chart.now.edition ≡ true) × (at + 5 * (chart.now.edition - 1) ≤ length bytes.old) }
    ensures { Put bytes.old at (edition_records chart.now) bytes.new result }
{
    if fields::is_second(chart.edition) {
        return records::put_edition(bytes, at);
    }
    at
}

fn file_length(chart: &Chart) -> usize
    requires { (chart.now.steps ≤ 64) × (chart.now.actions ≤ 32) × (chart.now.transitions ≤ 64) × (chart.now.blocks ≤ 256) × (chart.now.cases ≤ 64) × (edition_fits chart.now.edition ≡ true) }
    ensures { result ≡ file_length chart.now.steps chart.now.actions chart.now.transitions chart.now.blocks chart.now.cases chart.now.edition }
{
    let said = 5 * (chart.edition as usize - 1);
    let behind = 40 * chart.transitions + 11 * chart.blocks + 7 * chart.cases + said;
    5 * chart.steps + 9 * chart.actions + behind + 4
}

// The length written.
pub fn write_chart(chart: &Chart, bytes: &mut [u8]) -> Result<usize, Refusal>
    ensures { ◌≡◌ {A = Writing × List ℕ} (writing_of result, bytes.new) (write_chart chart.now bytes.old) }
{
    chart.check()?;
    if bytes.len() < file_length(chart) {
        return Err(Refusal::TooFewBytes);
    }
    let after_steps = put_steps(chart, bytes, 0);
    let after_actions = put_actions(chart, bytes, after_steps);
    let after_transitions = put_transitions(chart, bytes, after_actions);
    let after_blocks = put_blocks(chart, bytes, after_transitions);
    let after_cases = put_cases(chart, bytes, after_blocks);
    let after_edition = put_edition(chart, bytes, after_cases);
    Ok(records::put_end(bytes, after_edition))
}
