// The lines of the text, one after the other.
ghost use Rattle.std.specs.Prelude.{◌-◌, ◌≤◌, ◌≡◌, ◌∷◌, [], length, take};
ghost use Rattle.sets.specs.Bytes.{Put};
ghost use Rattle.weights.specs.Answer.{place};
ghost use Rattle.weights.specs.Listing.{fault_in, weights_in};

use crate::words;

// The place of the first faulty line, from 0 on; and how many weights were kept.
#[derive(Clone, Copy, Debug, PartialEq, Eq)]
pub struct Listed {
    pub fault: Option<usize>,
    pub count: usize,
}

// The next weight, where there is room for it. The list is lent, with a count of what it holds: no heap, fixed memory.
fn kept(weights: &mut [u16], count: usize, weight: u16) -> usize
    requires { count ≤ length weights.old }
    ensures { Put weights.old count (take (length weights.old - count) (weight ∷ [])) weights.new result }
{
    if count < weights.len() {
        weights[count] = weight;
        return count + 1;
    }
    count
}

// All of a text's weights, as many as there is room for.
pub fn list(text: &[u8], weights: &mut [u16]) -> Listed
    ensures { (result.fault ≡ place (fault_in text.now)) × Put weights.old 0 (take (length weights.old) (weights_in text.now)) weights.new result.count }
{
    let mut fault = None;
    let mut count = 0;
    for (k, line) in text.split(|b| *b == b'\n').enumerate() {
        match words::says(line) {
            Ok(Some(weight)) => count = kept(weights, count, weight),
            Ok(None) => {}
            Err(_) => fault = fault.or(Some(k)),
        }
    }
    Listed { fault, count }
}
