// Where the rows of a gap begin. The library's search by halves goes over a slice, and a source's rows may lie in bytes.
ghost use Rattle.std.specs.Prelude.{ℕ, ◌+◌, ◌<◌, ◌≤◌, length};
ghost use Rattle.torque.specs.Rows.{row_at};

use super::rows::Rows;

// So many rows on each side of a place are looked at one by one: as a rule more than the gaps beside a sample have. What lies
// further away is found by halves.
const NEAR: usize = 16;

// The first row at a gap or past it, by halves.
fn first_by_halves<R: Rows>(rows: &R, gap: usize) -> usize
    ensures within { result ≤ length (R.Rows.rows rows.now) }
    ensures before { (k : ℕ) → k < result → (row_at (R.Rows.rows rows.now) k).gap < gap }
    ensures found { result < length (R.Rows.rows rows.now) → gap ≤ (row_at (R.Rows.rows rows.now) result).gap }
{
    let mut low = 0;
    let mut high = rows.len();
    while low < high {
        let middle = low + (high - low) / 2;
        if (rows.row(middle).gap as usize) < gap {
            low = middle + 1;
        } else {
            high = middle;
        }
    }
    low
}

// The first row whose gap is not before the gap left of the sample, by halves.
pub(crate) fn first_row<R: Rows>(rows: &R, at: usize) -> usize
    ensures within { result ≤ length (R.Rows.rows rows.now) }
    ensures before { (k : ℕ) → k < result → (row_at (R.Rows.rows rows.now) k).gap + 1 < at }
    ensures found { result < length (R.Rows.rows rows.now) → at ≤ (row_at (R.Rows.rows rows.now) result).gap + 1 }
{
    first_by_halves(rows, at.saturating_sub(1))
}

// The first row at a gap or past it, looked for from a place near it.
pub(crate) fn first_from<R: Rows>(rows: &R, gap: usize, near: usize) -> usize
    ensures within { result ≤ length (R.Rows.rows rows.now) }
    ensures before { (k : ℕ) → k < result → (row_at (R.Rows.rows rows.now) k).gap < gap }
    ensures found { result < length (R.Rows.rows rows.now) → gap ≤ (row_at (R.Rows.rows rows.now) result).gap }
{
    let count = rows.len();
    let mut first = near.min(count);
    let low = first.saturating_sub(NEAR);
    let high = first.saturating_add(NEAR).min(count);
    while first > low && rows.row(first - 1).gap as usize >= gap {
        first -= 1;
    }
    while first < high && (rows.row(first).gap as usize) < gap {
        first += 1;
    }
    if (first == low && low > 0) || (first == high && high < count) {
        return first_by_halves(rows, gap);
    }
    first
}
