// A record's body as numbers, decoded from the bytes.
ghost use Rattle.std.specs.Prelude.{◌≡◌, ◌+◌, ◌≤◌, length};
ghost use Rattle.reader.specs.Bodies.{body_of, fields_at};

use crate::numbers;
use judging::Body;

pub(crate) fn step_at(bytes: &[u8], at: usize) -> Body
    requires { at + 1 ≤ length bytes.now }
    ensures { result ≡ body_of 1 (fields_at bytes.now 1 at) }
{
    Body::Step { initial: bytes[at] }
}

pub(crate) fn action_at(bytes: &[u8], at: usize) -> Body
    requires { at + 5 ≤ length bytes.now }
    ensures { result ≡ body_of 2 (fields_at bytes.now 2 at) }
{
    Body::Action {
        output: bytes[at],
        value: numbers::u32_at(bytes, at + 1).cast_signed(),
    }
}

pub(crate) fn transition_at(bytes: &[u8], at: usize) -> Body
    requires { at + 36 ≤ length bytes.now }
    ensures { result ≡ body_of 3 (fields_at bytes.now 3 at) }
{
    Body::Transition {
        sources: numbers::u64_at(bytes, at),
        targets: numbers::u64_at(bytes, at + 8),
        on: numbers::u64_at(bytes, at + 16),
        off: numbers::u64_at(bytes, at + 24),
        wait: numbers::u32_at(bytes, at + 32),
    }
}

pub(crate) fn block_at(bytes: &[u8], at: usize) -> Body
    requires { at + 7 ≤ length bytes.now }
    ensures { result ≡ body_of 4 (fields_at bytes.now 4 at) }
{
    Body::Block {
        step: bytes[at],
        action: bytes[at + 1],
        qualifier: bytes[at + 2],
        duration: numbers::u32_at(bytes, at + 3),
    }
}

pub(crate) fn case_at(bytes: &[u8], at: usize) -> Body
    requires { at + 3 ≤ length bytes.now }
    ensures { result ≡ body_of 5 (fields_at bytes.now 5 at) }
{
    Body::Case {
        step: bytes[at],
        signal: bytes[at + 1],
        expected: bytes[at + 2],
    }
}

pub(crate) fn edition_at(bytes: &[u8], at: usize) -> Body
    requires { at + 1 ≤ length bytes.now }
    ensures { result ≡ body_of 6 (fields_at bytes.now 6 at) }
{
    Body::Edition { edition: bytes[at] }
}
