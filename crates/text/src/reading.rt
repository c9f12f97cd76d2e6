// A whole text, a byte at a time.
ghost use Rattle.std.specs.Prelude.{◌≡◌, ◌≤◌};
ghost use Rattle.chart.specs.Chart.{empty_chart};
ghost use Rattle.grammar.specs.Answer.{Answers};
ghost use Rattle.reader.specs.Answer.{reading_of};
ghost use Rattle.text.specs.Codes.{columns, nexts};
ghost use Rattle.text.specs.Scan.{drafted};

use crate::pen::Pen;
use crate::roles::{DIGIT, FIRST};
use crate::saying::Draft;
use crate::states;
use crate::states::Tables;
use chart::Chart;
use reader::Fault;
use refusals::Refusal;

pub fn read_text(bytes: &[u8]) -> Result<Chart, Fault>
    ensures { Answers bytes.now (reading_of result) }
{
    let mut draft = Draft::new();
    draft.read(&Tables::new(), bytes)?;
    draft.finish()
}

impl Draft {
    // Not inlined, so that the tables stay lent.
    #[inline(never)]
    fn read(&mut self, tables: &Tables, bytes: &[u8]) -> Result<(), Fault>
        requires { (self.old ≡ record { stray = None; actions = 0; chart = empty_chart 1 }) × (tables.now.columns.now ≡ columns) × (tables.now.nexts.now ≡ nexts) }
        ensures answer { Answers bytes.now (drafted result self.new) }
        ensures counts { (self.new.actions ≤ 256) × (self.new.chart.actions ≡ 0) }
    {
        let mut state = 0;
        let mut pen = Pen::new();
        for (at, b) in bytes.iter().enumerate() {
            state = tables.next_of(state, *b);
            // Two bytes of three say nothing, and a digit or a name in a set says nothing yet.
            if state < states::SILENT {
                continue;
            }
            if state < states::FIRSTS {
                pen.take(FIRST, at, *b);
                continue;
            }
            if state < states::DIGITS {
                pen.take(DIGIT, at, *b);
                continue;
            }
            if state < states::NAMES {
                pen.name(states::role_of(state));
                continue;
            }
            if state >= states::STOP {
                return Err(Fault {
                    refusal: Refusal::NoText,
                    place: at,
                });
            }
            let role = states::role_of(state);
            self.say(role, &pen);
            pen.take(role, at, *b);
        }
        if states::is_final(state) {
            return Ok(());
        }
        Err(Fault {
            refusal: Refusal::NoText,
            place: bytes.len(),
        })
    }
}
