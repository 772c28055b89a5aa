// C's memory as the library's cells: the same bytes, at the other type.
//
// Each function lends them beside no cells: what a slice ends as that is lent as one slice of another type is told to no
// caller, and what one ends as that is lent as two is.
ghost use Rattle.std.specs.Prelude.{◌≡◌, map};
ghost use Rattle.std.specs.Borrow.{sem};
ghost use Rattle.furqyzet_c.specs.Cells.{class_cell, speed_cell};
ghost use Rattle.furqyzet_c.specs.Lending.{LendsClasses, LendsSpeeds};

use super::cells::{ClassCell, SpeedCell};
use grade::{Cell, Class, Speed};
use std::slice::from_raw_parts_mut;

pub(crate) fn class_cells(cells: &mut [ClassCell]) -> (&mut [Cell<Class>], &mut [Cell<Class>])
    ensures* writes_back { sem 𝓛 (LendsClasses cells.entry result) }
    ensures value { result.0.now ≡ map class_cell cells.old }
{
    let count = cells.len();
    let start = cells.as_mut_ptr() as *mut Cell<Class>;
    unsafe {
        (
            from_raw_parts_mut(start, count),
            from_raw_parts_mut(start, 0),
        )
    }
}

pub(crate) fn speed_cells(cells: &mut [SpeedCell]) -> (&mut [Cell<Speed>], &mut [Cell<Speed>])
    ensures* writes_back { sem 𝓛 (LendsSpeeds cells.entry result) }
    ensures value { result.0.now ≡ map speed_cell cells.old }
{
    let count = cells.len();
    let start = cells.as_mut_ptr() as *mut Cell<Speed>;
    unsafe {
        (
            from_raw_parts_mut(start, count),
            from_raw_parts_mut(start, 0),
        )
    }
}
