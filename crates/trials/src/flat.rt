// A limit by another maker: the same grade at every sample, whatever the others are.
ghost use Rattle.std.specs.Prelude.{length, pos, cond, nat_lt};
ghost use Rattle.limit.specs.Numbers.{every_sample};
ghost use Rattle.std.proofs.Common.{rules};

use grade::{Cell, Grade};
use limit::Limit;

#[derive(Clone, Copy, Debug, PartialEq, Eq)]
pub struct Flat<G> {
    pub most: G,
}

impl<G: Grade> Limit<G> for Flat<G> {
    ghost number = { λ l p i. cond (nat_lt i (length p)) (pos (G.Grade.rank l.most)) (pos G.Grade.top) };

    ghost low = { Prim.search rules };

    ghost high = { Prim.search rules };

    ghost outside = { Prim.search rules };

    ghost monotone = { Prim.search rules };

    ghost span = { λ l. every_sample };

    fn span(&self) -> usize {
        usize::MAX
    }

    fn evaluate(&self, cells: &[Cell<G>], at: usize) -> Option<G> {
        if at < cells.len() {
            Some(self.most)
        } else {
            Some(G::of_rank(G::highest()))
        }
    }
}
