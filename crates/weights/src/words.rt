// A line of the text, and what it says.
ghost use Rattle.std.specs.Prelude.{ℕ, Bool, ◌+◌, ◌≤◌, min, ◌≡◌, length};
ghost use Rattle.weights.specs.Answer.{Blank, said_as};
ghost use Rattle.weights.specs.Words.{is_of, leading, value, word_says, says_of};

// A line that can't be read.
#[derive(Clone, Copy, Debug, PartialEq, Eq)]
pub struct Unreadable;

// How many bytes at the front are such.
fn leading<F: Fn(u8) -> bool>(is_such: F, s: &[u8]) -> usize
    requires { F.IsAlwaysCallable is_such }
    ensures within { result ≤ length s.now }
    ensures number { (p : ℕ → Bool) → ((b : ℕ) (r : Bool) → F.post is_such b r → r ≡ p b) → result ≡ leading p s.now }
{
    s.iter().position(|b| !is_such(*b)).unwrap_or(s.len())
}

// The number of the digits, 65,536 for any that is larger.
fn value_of(digits: &[u8]) -> u32
    ensures { result ≡ min (value (length digits.now) digits.now) 65536 }
{
    let mut number = 0;
    for b in digits {
        number = (10 * number + b.saturating_sub(b'0') as u32).min(65536);
    }
    number
}

// Digits, and blanks behind them.
fn word_says(word: &[u8]) -> Result<Option<u16>, Unreadable>
    ensures { said_as result ≡ word_says word.now }
{
    if word.is_empty() {
        return Ok(None);
    }
    let n = leading(|b| b.is_ascii_digit(), word);
    let (digits, tail) = word.split_at(n);
    let number = value_of(digits);
    if n != 0 && blanks(tail) == tail.len() && number <= 65535 {
        return Ok(Some(number as u16));
    }
    Err(Unreadable)
}

fn blanks(s: &[u8]) -> usize
    ensures within { result ≤ length s.now }
    ensures number { result ≡ leading (is_of Blank) s.now }
{
    leading(|b| b == b'\t' || b == b'\r' || b == b' ', s)
}

// Without its comment and the blanks before it.
pub fn says(line: &[u8]) -> Result<Option<u16>, Unreadable>
    ensures { said_as result ≡ says_of line.now }
{
    let body = &line[..leading(|b| b != b'#', line)];
    word_says(&body[blanks(body)..])
}
