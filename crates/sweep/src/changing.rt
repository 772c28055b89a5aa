// Cuts and lifts of one cell, for every make of grade.
ghost use Rattle.std.specs.Prelude.{◌≡◌};
ghost use Rattle.grade.specs.Ranks.{ranked};
ghost use Rattle.sweep.specs.Changes.{cutting, cut_to, lifting, lift_to};

use grade::{Cell, Grade, higher, lower};

// What a cut means for the value of its sample.
#[derive(Clone, Copy, Debug, PartialEq, Eq)]
pub enum Cutting {
    // The value is no higher than the cut.
    Slack,
    // The value falls to the cut.
    Lowering,
    // The value would have to fall below its floor, and stays.
    Clash,
}

// What a lift means for the value of its sample.
#[derive(Clone, Copy, Debug, PartialEq, Eq)]
pub enum Lifting {
    // The value is no lower than the lifted floor.
    Slack,
    // The value would have to rise, and stays.
    Clash,
}

// The cap of a cell falls to a grade, unless it is lower already.
pub fn cut_cell<G: Grade>(cell: &mut Cell<G>, to: G) -> Cutting
    ensures which { result ≡ cutting (G.Grade.rank to) (ranked G.Grade.rank cell.old) }
    ensures cell { ranked G.Grade.rank cell.new ≡ cut_to result (G.Grade.rank to) (ranked G.Grade.rank cell.old) }
{
    cell.cap = lower(cell.cap, to);
    if to.rank() >= cell.value.rank() {
        Cutting::Slack
    } else if to.rank() < cell.floor.rank() {
        Cutting::Clash
    } else {
        cell.value = to;
        Cutting::Lowering
    }
}

// The floor of a cell rises to a grade, unless it is higher already.
pub fn lift_cell<G: Grade>(cell: &mut Cell<G>, to: G) -> Lifting
    ensures which { result ≡ lifting (G.Grade.rank to) (ranked G.Grade.rank cell.old) }
    ensures cell { ranked G.Grade.rank cell.new ≡ lift_to (G.Grade.rank to) (ranked G.Grade.rank cell.old) }
{
    cell.floor = higher(cell.floor, to);
    if cell.value.rank() < cell.floor.rank() {
        Lifting::Clash
    } else {
        Lifting::Slack
    }
}
