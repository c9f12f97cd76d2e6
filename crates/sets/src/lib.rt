// Sets of numbers below 64 as one word: bit k is number k (document 01, "The chart and its bytes").
#![tactic(auto)]

ghost use Rattle.std.specs.Prelude.{◌%◌, ◌≡◌, cond};
ghost use Rattle.std.specs.Iterator.{at_most};
ghost use Rattle.sets.specs.Sets.{has, Within, Apart, Below, union, inter, minus, insert, beyond, first, remove, size};
ghost use Rattle.sets.specs.Visiting.{Visits};

pub fn is_in(s: u64, k: usize) -> bool
    ensures { result ≡ has s k }
{
    if k < 64 {
        return (s >> k) % 2 == 1;
    }
    false
}

pub fn is_within(a: u64, b: u64) -> bool
    ensures { result ≡ Within a b }
{
    a & b == a
}

pub fn is_apart(a: u64, b: u64) -> bool
    ensures { result ≡ Apart a b }
{
    a & b == 0
}

pub fn names_below(s: u64, n: usize) -> bool
    ensures { result ≡ Below s n }
{
    if n < 64 {
        return s >> n == 0;
    }
    true
}

pub fn joined(a: u64, b: u64) -> u64
    ensures { result ≡ union a b }
{
    a | b
}

pub fn common(a: u64, b: u64) -> u64
    ensures { result ≡ inter a b }
{
    a & b
}

pub fn without(a: u64, b: u64) -> u64
    ensures { result ≡ minus a b }
{
    a & !b
}

// A number above 63 is in no set: asked to put it in, this leaves the set as it is.
pub fn with(s: u64, k: usize) -> u64
    ensures { result ≡ insert s k }
{
    if k < 64 {
        return s | 1 << k;
    }
    s
}

// s, with k if b says so.
pub fn with_if(s: u64, k: usize, b: bool) -> u64
    ensures { result ≡ cond b (insert s k) s }
{
    if b { with(s, k) } else { s }
}

// Membership and insertion without a test, for numbers that are known to be below 64: any other counts as its rest by 64, as the machine's
// shifts have it.
pub fn is_in_mod(s: u64, k: usize) -> bool
    ensures { result ≡ has s (k % 64) }
{
    (s >> (k % 64)) % 2 == 1
}

pub fn with_if_mod(s: u64, k: usize, b: bool) -> u64
    ensures { result ≡ cond b (insert s (k % 64)) s }
{
    s | (b as u64) << (k % 64)
}

pub fn beyond(n: usize) -> u64
    ensures { result ≡ beyond n }
{
    if n < 64 {
        return u64::MAX << n;
    }
    0
}

pub fn size(s: u64) -> usize
    ensures { result ≡ size s }
{
    u64::count_ones(s) as usize
}

pub fn first(s: u64) -> usize
    ensures { result ≡ first s }
{
    u64::trailing_zeros(s) as usize
}

pub fn without_first(s: u64) -> u64
    ensures { result ≡ remove s (first s) }
{
    if s == 0 {
        return 0;
    }
    s & (s - 1)
}

// A loop over the members of a set, the least first: those still to come.
#[derive(Clone, Copy)]
pub struct Unvisited {
    pub rest: u64,
}

// `for k in sets::each(s)` goes over the members of s.
pub fn each(s: u64) -> Unvisited
    ensures { result.rest ≡ s }
{
    Unvisited { rest: s }
}

impl Iterator for Unvisited {
    type Item = usize;

    ghost next_gives = { Visits };

    ghost remaining = { λ s. at_most s.rest };

    fn next(&mut self) -> Option<usize> {
        if self.rest == 0 {
            return None;
        }
        let k = first(self.rest);
        self.rest = without_first(self.rest);
        Some(k)
    }
}
