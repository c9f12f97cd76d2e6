// A table of step counters or of action timers, where it lies: whether it fits its set, its growth, and what is cleared of it.
ghost use Rattle.std.specs.Prelude.{◌^◌, ◌≤◌, ◌<◌, ◌&&◌, not, ◌≡◌, eqb, leb, get_or};
ghost use Rattle.sets.specs.Loops.{counted};
ghost use Rattle.run.specs.Run.{longest};
ghost use Rattle.run.specs.Tables.{fit_in, grown_in, cleared_in};

use crate::lasting::Lasting;
use crate::run::LONGEST;

// Not 0, and no longer than a member's count may be.
fn fits_member(n: u32) -> bool
    ensures { result ≡ (not (eqb n 0) && leb n longest) }
{
    (n != 0) & (n <= LONGEST)
}

// How many entries are not 0: a pass without a branch, of which the compiler makes vectors.
fn nonzero<T: Lasting, const N: usize>(table: &[T; N]) -> u32
    requires { N ≤ 64 }
    ensures { result ≡ counted (λ k. not (eqb (T.ms (get_or table.now k (T.of 0))) 0)) N }
{
    let mut n = 0;
    for x in table {
        n += u32::from(x.ms() != 0);
    }
    n
}

// Each entry that is not 0 must be a member's, and not too long. Only the members are visited: of the entries that are not 0 those that fit are
// taken off, and none may be left.
pub fn fits<T: Lasting, const N: usize>(table: &[T; N], set: u64) -> bool
    requires { (N ≤ 64) × (set < 2 ^ N) }
    ensures { result ≡ fit_in T.ms T.of table.now set N }
{
    let mut left = nonzero(table);
    for k in sets::each(set) {
        left -= u32::from(fits_member(table[k].ms()));
    }
    left == 0
}

// Only the members of the set are touched.
pub fn grow<T: Lasting, const N: usize>(table: &mut [T; N], set: u64, elapsed: u32)
    requires { (N ≤ 64) × (set < 2 ^ N) }
    ensures { table.new ≡ grown_in T.ms T.of table.old set elapsed N }
{
    for k in sets::each(set) {
        table[k] = table[k].longer(elapsed);
    }
}

// Only what is gone is written: the others run on.
pub fn clear<T: Lasting, const N: usize>(table: &mut [T; N], gone: u64)
    requires { (N ≤ 64) × (gone < 2 ^ N) }
    ensures { table.new ≡ cleared_in T.of table.old gone N }
{
    for k in sets::each(gone) {
        table[k] = T::of(0);
    }
}
