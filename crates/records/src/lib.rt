// The reader by itself, asked for the next record (document 01, "it remembers the lent bytes and the place, with the kind before").
#![tactic(auto)]

ghost use Rattle.std.specs.Prelude.{◌≡◌};
ghost use Rattle.reader.specs.Answer.{next_of};
ghost use Rattle.records.specs.Asking.{opening, Finds, Asks};

use reader::{Fault, Record};

#[derive(Clone, Copy)]
pub struct Records<'a> {
    pub bytes: &'a [u8],
    pub at: usize,
    pub before: u16,
}

impl<'a> Records<'a> {
    pub fn opened(bytes: &'a [u8]) -> Records<'a>
        ensures { result ≡ opening bytes.entry }
    {
        Records {
            bytes,
            at: 0,
            before: 0,
        }
    }

    pub fn next_record(&mut self) -> Result<Option<Record>, Fault>
        ensures { Asks (next_of result) self.old self.new }
    {
        record_from(self.bytes, &mut self.at, &mut self.before)
    }
}

// The same for a caller that has no `Records`: the place and the kind before are lent.
pub fn record_from(bytes: &[u8], at: &mut usize, before: &mut u16) -> Result<Option<Record>, Fault>
    ensures { Finds (record { answer = next_of result; at = at.new; before = before.new }) bytes.now at.old before.old }
{
    let found = reader::record_at(bytes, *at, *before)?;
    if let Some(record) = found {
        *at = record.place + record.length;
        *before = record.kind;
    }
    Ok(found)
}
