// The first torque row that a question is answered yes at.
ghost use Rattle.std.specs.Prelude.{◌≡◌, ℕ, length, ℤ};
ghost use Rattle.grade.specs.Ranks.{ranks, speed_rank};
ghost use Rattle.torque.specs.Rows.{row_at};
ghost use Rattle.motion.specs.Torques.{allows};
ghost use Rattle.binding.specs.declared.bound.Bound.{Bound};
ghost use Rattle.binding.specs.declared.bound.Bound.TheVariants.{TorqueRow};
ghost use Rattle.binding.specs.Bounds.{rows_from};
ghost use Rattle.binding.specs.Questions.{first};

use super::bound::{Bound, Found};
use super::question::{Question, judge, rank_of};
use grade::{Cell, Speed};
use limit::Limit;
use motion::{Sides, Torque, row_bound};

// The rows are asked one by one only where the least of them leaves room for a yes.
pub(crate) fn first_row<R: Sides>(
    question: Question,
    limit: &Torque<R>,
    cells: &[Cell<Speed>],
    at: usize,
) -> Option<Found>
    ensures { (f : Bound → ℤ) → ((k : ℕ) → f (TorqueRow k) ≡ allows (R.Rows.spacing limit.now.rows) (ranks speed_rank cells.now) at (row_at (R.Rows.rows limit.now.rows) k)) → result ≡ first question f (rows_from 0 (length (R.Rows.rows limit.now.rows))) }
{
    let least = limit.evaluate(cells, at);
    if question.is_past(rank_of(least)) {
        return None;
    }
    (0..limit.rows.len()).find_map(|row| {
        let most = row_bound(limit, row, cells, at);
        judge(question, Bound::TorqueRow(row), most)
    })
}
