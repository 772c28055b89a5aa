// How many bytes a frame has, and the bytes of its header.
ghost use Rattle.std.specs.Prelude.{◌≡◌, ◌≤◌};
ghost use Rattle.frame.specs.Layout.{rows_at, frame_size_of};
ghost use Rattle.frame.specs.Writes.{header_bytes_of};

use super::header::Header;
use super::layout::{BODY_AT, HEADER_SIZE, VERSION};
use record::layout::{GAP_SIZE, ROW_SIZE, SAMPLE_SIZE};

impl Header {
    /// The size of a frame with this header, in bytes.
    pub fn frame_size(self) -> usize
        ensures { result ≡ frame_size_of self.samples self.rows }
    {
        self.rows_offset() + ROW_SIZE * self.rows as usize
    }

    // Where the torque rows begin.
    pub(crate) fn rows_offset(self) -> usize
        ensures { result ≡ rows_at self.samples }
    {
        let samples = self.samples as usize;
        let gaps = samples.saturating_sub(1);
        HEADER_SIZE + SAMPLE_SIZE * samples + GAP_SIZE * gaps
    }

    // The bytes of the version, the length and the body's own fields.
    pub(crate) fn bytes(self) -> [u8; HEADER_SIZE]
        requires { 15 ≤ frame_size_of self.samples self.rows }
        ensures { result ≡ header_bytes_of self }
    {
        let length = (self.frame_size() - BODY_AT) as u32;
        let [l3, l2, l1, l0] = length.to_be_bytes();
        let [n1, n0] = self.samples.to_be_bytes();
        let [h1, h0] = self.spacing.to_be_bytes();
        let [a3, a2, a1, a0] = self.lateral.to_be_bytes();
        let [t1, t0] = self.rows.to_be_bytes();
        [
            VERSION, l3, l2, l1, l0, n1, n0, h1, h0, a3, a2, a1, a0, t1, t0,
        ]
    }
}
