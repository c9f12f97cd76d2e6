// A chart from its file or its text, and back into a file. A number of refusal is a byte, and answers are stored where they are lent: the C interface.
ghost use Rattle.std.specs.Prelude.{◌≡◌, List, ℕ};
ghost use Rattle.chart.specs.Held.{chart_code};
ghost use Rattle.reader.specs.Reading.{read_chart};
ghost use Rattle.grammar.specs.Answer.{Answers};
ghost use Rattle.writer.specs.Writing.{write_chart};
ghost use Rattle.writer.specs.Answer.{Writing};
ghost use Rattle.desk.specs.Lent.{Tells, read_as, written_as};

use chart::Chart;
use reader::Record;

// The next record, by the reader that remembers the place and the kind before: the number, and the record; zeros for the end, and for what a refusal
// has not.
#[unsafe(no_mangle)]
pub extern "C" fn tolwaziho_next_record(
    bytes: &[u8],
    at: &mut usize,
    before: &mut u16,
    kind: &mut u16,
    place: &mut usize,
    length: &mut usize,
) -> u8
    ensures { Tells result kind.new place.new length.new at.new before.new bytes.now at.old before.old }
{
    *kind = 0;
    *place = 0;
    *length = 0;
    match records::record_from(bytes, at, before) {
        Ok(Some(record)) => {
            *kind = record.kind;
            *place = record.place;
            *length = record.length;
            0
        }
        Ok(None) => 0,
        Err(fault) => {
            *place = fault.place;
            fault.refusal.number()
        }
    }
}

// Reading, into the lent chart: the number, and its place.
#[unsafe(no_mangle)]
pub extern "C" fn tolwaziho_read(bytes: &[u8], chart: &mut Chart, place: &mut usize) -> u8
    ensures { read_as result place.new chart.new ≡ read_chart bytes.now }
{
    match reader::read_into(bytes, chart) {
        Ok(()) => {
            *place = 0;
            0
        }
        Err(fault) => {
            *place = fault.place;
            fault.refusal.number()
        }
    }
}

// The same of a text (document 02, request iv).
#[unsafe(no_mangle)]
pub extern "C" fn tolwaziho_read_text(bytes: &[u8], chart: &mut Chart, place: &mut usize) -> u8
    ensures { Answers bytes.now (read_as result place.new chart.new) }
{
    match text::read_text(bytes) {
        Ok(said) => {
            *chart = said;
            *place = 0;
            0
        }
        Err(fault) => {
            *chart = Chart::empty(0);
            *place = fault.place;
            fault.refusal.number()
        }
    }
}

// The test of a held chart: its number.
#[unsafe(no_mangle)]
pub extern "C" fn tolwaziho_test(chart: &Chart) -> u8
    ensures { result ≡ chart_code chart.now }
{
    refusals::code_of(chart.check())
}

// Writing, into the lent bytes: the number, and the length written.
#[unsafe(no_mangle)]
pub extern "C" fn tolwaziho_write(chart: &Chart, bytes: &mut [u8], length: &mut usize) -> u8
    ensures { ◌≡◌ {A = Writing × List ℕ} (written_as result length.new, bytes.new) (write_chart chart.now bytes.old) }
{
    match writer::write_chart(chart, bytes) {
        Ok(written) => {
            *length = written;
            0
        }
        Err(refusal) => {
            *length = 0;
            refusal.number()
        }
    }
}
