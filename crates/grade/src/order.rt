// The lower and the higher of two grades. By rank and no `Ord`: each make would prove an order that says again what its rank
// says, for two lines here.
ghost use Rattle.std.specs.Prelude.{◌≡◌, min, max};

use super::grade::Grade;

pub fn lower<G: Grade>(a: G, b: G) -> G
    ensures { G.Grade.rank result ≡ min (G.Grade.rank a) (G.Grade.rank b) }
{
    if a.rank() <= b.rank() { a } else { b }
}

pub fn higher<G: Grade>(a: G, b: G) -> G
    ensures { G.Grade.rank result ≡ max (G.Grade.rank a) (G.Grade.rank b) }
{
    if a.rank() <= b.rank() { b } else { a }
}
