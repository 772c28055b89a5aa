// The view of an accepted path frame: typed records read in place from the caller's bytes.
ghost use Rattle.std.specs.Prelude.{◌≡◌, true};
ghost use Rattle.frame.specs.Paths.{accepted, header_at};

use super::header::Header;

/// An accepted path frame. `read` asks the questions; after its yes this view hands out the records.
// Contracts name its bytes, since writing it gives them back: a model as the path alone would hide them.
#[derive(Clone, Copy, Debug, PartialEq, Eq)]
pub struct PathFrame<'a> {
    pub(crate) bytes: &'a [u8],
    // Decoded once, and not at each record that is read.
    pub(crate) header: Header,
    ghost sound: { accepted bytes.now ≡ true },
    ghost decoded: { header ≡ header_at bytes.now },
}
