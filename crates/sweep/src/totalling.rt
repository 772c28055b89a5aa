// The sum of a sheet's values.
ghost use Rattle.std.specs.Prelude.{◌≡◌, ◌*◌, ◌^◌, ◌≤◌, length, sum_by};

use grade::{Cell, Grade};

// The sum of the values' ranks. As a chain, `iter().map(..).sum()`, it is not proved to fit: what is known of a rank is
// the 32 bits of what `rank` returns, and the chain's clauses forget them.
pub fn total<G: Grade>(cells: &[Cell<G>]) -> u64
    requires { length cells.now ≤ 2 ^ 32 }
    ensures sum { result ≡ sum_by (λ c. G.Grade.rank c.value) cells.now }
    ensures fits { result ≤ 2 ^ 32 * length cells.now }
{
    let mut sum = 0;
    for cell in cells {
        sum += u64::from(cell.value.rank());
    }
    sum
}
