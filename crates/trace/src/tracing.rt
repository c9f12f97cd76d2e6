// The trace: one start record, and cycle records behind it, framed as in the chart file.
ghost use Rattle.std.specs.Prelude.{◌≡◌};
ghost use Rattle.refusals.specs.Refusals.{code_of};
ghost use Rattle.trace.specs.Answer.{call_of};
ghost use Rattle.trace.specs.Tracing.{kind_due, body_due, head_fits, call_at, trace_number};

use reader::numbers;
use refusals::Refusal;

#[derive(Clone, Copy, Debug, PartialEq, Eq)]
pub enum Call {
    Start { clock: u32 },
    Cycle { clock: u32, inputs: u32 },
}

fn kind_due(at: usize) -> u16
    ensures { result ≡ kind_due at }
{
    if at == 0 { 17 } else { 16 }
}

fn body_due(at: usize) -> u16
    ensures { result ≡ body_due at }
{
    if at == 0 { 4 } else { 8 }
}

// The kind is the number that the bytes have: it is compared with the one that is due.
fn head_fits(at: usize, left: usize, kind: u16, length: u16) -> bool
    ensures { result ≡ head_fits at left kind length }
{
    let body = body_due(at);
    at < 65528 && kind == kind_due(at) && length == body && body as usize + 4 <= left
}

// What stands at a place of the trace. At its end, and anywhere behind it, the trace is over.
pub fn call_at(trace: &[u8], at: usize) -> Result<Option<Call>, Refusal>
    ensures { (call_of result ≡ call_at trace.now at) × (code_of result ≡ trace_number trace.now at) }
{
    if trace.len() <= at {
        return Ok(None);
    }
    let length = numbers::u16_from(trace, at);
    let kind = numbers::u16_from(trace, at + 2);
    if !head_fits(at, trace.len() - at, kind, length) {
        return Err(Refusal::BadTrace);
    }
    let clock = numbers::u32_from(trace, at + 4);
    if at == 0 {
        return Ok(Some(Call::Start { clock }));
    }
    let inputs = numbers::u32_from(trace, at + 8);
    Ok(Some(Call::Cycle { clock, inputs }))
}
