// What a settled job becomes: the class and the speed cells of its samples, lent until the setpoints are written.
ghost use Rattle.std.specs.Prelude.{◌≡◌, length};

use grade::{Cell, Class, Speed};
use runs::Samples;

// Used up once: it is never compared, nor is what was not released.
#[derive(Debug, Drop)]
pub struct Released<'a> {
    pub(crate) samples: Samples,
    pub(crate) classes: &'a [Cell<Class>],
    pub(crate) speeds: &'a [Cell<Speed>],
    ghost class_cells: { length classes.now ≡ samples.count },
    ghost speed_cells: { length speeds.now ≡ samples.count },
}
