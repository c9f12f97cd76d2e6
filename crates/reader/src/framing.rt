// One record: its head, and where its body stands (document 01, "A manufacturer's tool may take the reader by itself").
ghost use Rattle.std.specs.Prelude.{◌≡◌};
ghost use Rattle.refusals.specs.Refusals.{code_of};
ghost use Rattle.reader.specs.Framing.{body_length, head_number, Answers};
ghost use Rattle.reader.specs.Answer.{next_of};

use crate::numbers;
use refusals::Refusal;

// Why a file is refused, and the place that says where.
#[derive(Clone, Copy, Debug, PartialEq, Eq)]
pub struct Fault {
    pub refusal: Refusal,
    pub place: usize,
}

// Its kind by number, since the kind before it is lent as one; where its body stands, and how long that is.
#[derive(Clone, Copy, Debug, PartialEq, Eq)]
pub struct Record {
    pub kind: u16,
    pub place: usize,
    pub length: usize,
}

fn body_length(kind: u16) -> u16
    ensures { result ≡ body_length kind }
{
    match kind {
        1 => 1,
        2 => 5,
        3 => 36,
        4 => 7,
        5 => 3,
        6 => 1,
        _ => 0,
    }
}

fn check_head(length: u16, kind: u16, rest: usize, before: u16) -> Result<(), Refusal>
    ensures { code_of result ≡ head_number length kind rest before }
{
    // The end is told apart first, so that no test of the others asks for it.
    if kind == 0 {
        return refusals::unless(length == 0, Refusal::BadLength);
    }
    if !fields::kind_fits(kind, before) {
        return Err(Refusal::BadKind);
    }
    if length != body_length(kind) {
        return Err(Refusal::BadLength);
    }
    refusals::unless(length as usize <= rest, Refusal::Cut)
}

// What stands at a place: a record, or the end.
pub fn record_at(bytes: &[u8], at: usize, before: u16) -> Result<Option<Record>, Fault>
    ensures { Answers (next_of result) bytes.now at before }
{
    // The place is compared with where the last head may stand, which does not change from record to record.
    let size = bytes.len();
    if size < 4 || size - 4 < at {
        return Err(Fault {
            refusal: Refusal::Cut,
            place: at,
        });
    }
    let place = at + 4;
    let length = numbers::u16_at(bytes, at);
    let kind = numbers::u16_at(bytes, at + 2);
    if let Err(refusal) = check_head(length, kind, size - place, before) {
        return Err(Fault { refusal, place: at });
    }
    if kind == 0 {
        return Ok(None);
    }
    Ok(Some(Record {
        kind,
        place,
        length: length as usize,
    }))
}
