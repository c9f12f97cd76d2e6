// The parts of printed lines, byte for byte, put at a place of a lent buffer; what lies behind a part stays. Each answers the place behind it.
// A buffer and a place go together in every call, since the project has no heap: the buffer is the caller's, of fixed memory.
#![tactic(auto)]

ghost use Rattle.std.specs.Prelude.{◌+◌, ◌%◌, ◌≤◌, ◌↔◌, ◌++◌, ◌≡◌, IsTrue, length};
ghost use Rattle.sets.specs.Bytes.{Put};
ghost use Rattle.lines.specs.Lines.{text, digit, hex, decimal, named_line, chart_line, Puts};

// The digit of a number below 16; of a larger one, its last in hex.
pub fn digit(n: u64) -> u8
    ensures { result ≡ digit (n % 16) }
{
    let d = (n % 16) as u8;
    if d < 10 { b'0' + d } else { b'a' - 10 + d }
}

// From a place on there are so many bytes, and so many more.
fn has_room(length: usize, at: usize, room: usize, more: usize) -> bool
    ensures { IsTrue result ↔ (at + (room + more) ≤ length) }
{
    at <= length && room <= length - at && more <= length - at - room
}

fn write(line: &mut [u8], at: usize, bytes: &[u8]) -> usize
    requires { at + length bytes.now ≤ length line.old }
    ensures { Put line.old at bytes.now line.new result }
{
    let end = at + bytes.len();
    line[at..end].copy_from_slice(bytes);
    end
}

fn write_hex(line: &mut [u8], at: usize, k: usize, n: u64) -> usize
    requires { at + k ≤ length line.old }
    ensures { Put line.old at (hex k n) line.new result }
{
    if k == 0 {
        return at;
    }
    let last = write_hex(line, at, k - 1, n / 16);
    line[last] = digit(n);
    last + 1
}

fn write_decimal(line: &mut [u8], at: usize, n: u64) -> usize
    requires { at + 20 ≤ length line.old }
    ensures { Put line.old at (decimal n) line.new result }
{
    if n < 10 {
        line[at] = digit(n);
        return at + 1;
    }
    let last = write_decimal(line, at, n / 10);
    line[last] = digit(n % 10);
    last + 1
}

pub fn put(line: &mut [u8], at: usize, bytes: &[u8]) -> usize
    ensures { Puts (length bytes.now) line.old at bytes.now line.new result }
{
    if has_room(line.len(), at, bytes.len(), 0) {
        return write(line, at, bytes);
    }
    at
}

pub fn put_decimal(line: &mut [u8], at: usize, n: u64) -> usize
    ensures { Puts 20 line.old at (decimal n) line.new result }
{
    put_named(line, at, b"", n)
}

// A space and so many hex digits.
pub fn put_word(line: &mut [u8], at: usize, k: usize, n: u64) -> usize
    ensures { Puts (k + 1) line.old at (text " " ++ hex k n) line.new result }
{
    if has_room(line.len(), at, k, 1) {
        let digits = write(line, at, b" ");
        return write_hex(line, digits, k, n);
    }
    at
}

// Some bytes and a number behind them.
pub fn put_named(line: &mut [u8], at: usize, name: &[u8], n: u64) -> usize
    ensures { Puts (length name.now + 20) line.old at (name.now ++ decimal n) line.new result }
{
    if has_room(line.len(), at, name.len(), 20) {
        let digits = write(line, at, name);
        return write_decimal(line, digits, n);
    }
    at
}

// A whole line of some bytes and a number.
pub fn put_line(line: &mut [u8], at: usize, name: &[u8], n: u64) -> usize
    ensures { Puts (length name.now + 21) line.old at (named_line name.now n) line.new result }
{
    if has_room(line.len(), at, name.len(), 21) {
        let digits = write(line, at, name);
        let end = write_decimal(line, digits, n);
        return write(line, end, b"\n");
    }
    at
}

// By the refusal's number: lines are of text and numbers, whoever prints them.
pub fn chart_line(line: &mut [u8], at: usize, code: u8) -> usize
    ensures { Puts 35 line.old at (chart_line code) line.new result }
{
    put_line(line, at, b"refused chart ", code as u64)
}
