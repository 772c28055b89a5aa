// The profile that cells hold, read sample by sample.
ghost use Rattle.std.specs.Prelude.{◌≡◌, ◌<◌, length};
ghost use Rattle.grade.specs.Profiles.{rank};
ghost use Rattle.grade.specs.Ranks.{ranks};

use grade::{Cell, Grade};

// How many samples there are.
pub(crate) fn samples<G: Grade>(cells: &[Cell<G>]) -> usize
    ensures cells { result ≡ length cells.now }
    ensures profile { result ≡ length (ranks G.Grade.rank cells.now) }
{
    cells.len()
}

// The grade at a sample, by an index that is known: this is where such an index is read.
pub(crate) fn value<G: Grade>(cells: &[Cell<G>], at: usize) -> G
    requires { at < length cells.now }
    ensures { G.Grade.rank result ≡ rank (ranks G.Grade.rank cells.now) at }
{
    cells[at].value
}

// The top of a make, which bounds nothing.
pub(crate) fn unbounded<G: Grade>() -> G
    ensures { G.Grade.rank result ≡ G.Grade.top }
{
    G::of_rank(G::highest())
}
