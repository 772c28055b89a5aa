// The bytes of a frame whose header was asked: long enough for every record that the header counts.
ghost use Rattle.std.specs.Prelude.{◌≤◌, length};
ghost use Rattle.frame.specs.Layout.{frame_size_of};

use super::header::Header;

#[derive(Clone, Copy, Debug, PartialEq, Eq)]
pub struct Body<'a> {
    pub bytes: &'a [u8],
    pub header: Header,
    ghost samples: { header.samples ≤ 4096 },
    ghost rows: { header.rows ≤ 8192 },
    ghost long: { frame_size_of header.samples header.rows ≤ length bytes.now },
}
