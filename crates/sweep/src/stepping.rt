// A step of a sweep: one evaluation at the sample that comes next, the same for every make of grade and every limit.
ghost use Rattle.std.specs.Prelude.{◌<◌, length};
ghost use Rattle.sweep.specs.Steps.{Stepped};

use super::step::Step;
use super::sweeping::Pass;
use super::visiting::visit;
use grade::{Cell, Grade};
use limit::Limit;
use runs::Sweep;

pub fn sweep_step<G: Grade, L: Limit<G>>(cells: &mut [Cell<G>], limit: &L, sweep: Sweep) -> Step
    requires { sweep.visited < length cells.old }
    ensures { Stepped G.Grade.rank (L.Limit.number limit.now) sweep cells.old cells.new result }
{
    let pass = Pass {
        sweep,
        samples: cells.len(),
    };
    let at = pass.next_sample();
    let finding = visit(cells, limit, at);
    Step {
        at,
        finding,
        outcome: pass.outcome_of(finding),
    }
}
