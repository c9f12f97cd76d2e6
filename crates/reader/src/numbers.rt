// Numbers in a file, the least byte first.
ghost use Rattle.std.specs.Prelude.{◌≡◌, ◌+◌, ◌-◌, ◌<◌, ◌≤◌, length, leb, take, drop, replicate, cond};
ghost use Rattle.reader.specs.Numbers.{le, le_from};

fn bytes_at<const N: usize>(bytes: &[u8], at: usize) -> [u8; N]
    requires { at + N ≤ length bytes.now }
    ensures { result ≡ take N (drop at bytes.now) }
{
    bytes[at..at + N].try_into().unwrap()
}

pub(crate) fn u16_at(bytes: &[u8], at: usize) -> u16
    requires { at + 2 ≤ length bytes.now }
    ensures { result ≡ le 2 bytes.now at }
{
    u16::from_le_bytes(bytes_at(bytes, at))
}

pub(crate) fn u32_at(bytes: &[u8], at: usize) -> u32
    requires { at + 4 ≤ length bytes.now }
    ensures { result ≡ le 4 bytes.now at }
{
    u32::from_le_bytes(bytes_at(bytes, at))
}

pub(crate) fn u64_at(bytes: &[u8], at: usize) -> u64
    requires { at + 8 ≤ length bytes.now }
    ensures { result ≡ le 8 bytes.now at }
{
    u64::from_le_bytes(bytes_at(bytes, at))
}

// Zeros where they are cut.
fn bytes_from<const N: usize>(bytes: &[u8], at: usize) -> [u8; N]
    requires { 0 < N }
    ensures { result ≡ cond (leb N (length bytes.now - at)) (take N (drop at bytes.now)) (replicate N 0) }
{
    if bytes.len().saturating_sub(at) < N {
        return [0; N];
    }
    bytes_at(bytes, at)
}

// For records that are framed alike elsewhere, at any place: 0 where the number is cut.
pub fn u16_from(bytes: &[u8], at: usize) -> u16
    ensures { result ≡ le_from 2 bytes.now at }
{
    u16::from_le_bytes(bytes_from(bytes, at))
}

pub fn u32_from(bytes: &[u8], at: usize) -> u32
    ensures { result ≡ le_from 4 bytes.now at }
{
    u32::from_le_bytes(bytes_from(bytes, at))
}
