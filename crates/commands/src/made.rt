// A job that was made. It owns its frame, and so is a type apart from `Live`, which holds a view of one.
ghost use Rattle.std.specs.Prelude.{◌≡◌, true};
ghost use Rattle.frame.specs.Paths.{accepted};

use grade::{Cell, Class, Speed};
use job::Job;

// A job with the accepted frame that it was made of, and its memories. It owns them, and is never shown or compared.
#[derive(Drop)]
pub struct Made {
    pub frame: Vec<u8>,
    pub classes: Vec<Cell<Class>>,
    pub speeds: Vec<Cell<Speed>>,
    pub job: Job,
    ghost is_accepted: { accepted frame.items ≡ true },
}
