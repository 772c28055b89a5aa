// Offsets in a slice.
use motion::Offsets;

#[derive(Clone, Copy, Debug, PartialEq, Eq)]
pub struct OffsetSlice<'a> {
    pub offsets: &'a [i32],
}

impl<'a> Offsets for OffsetSlice<'a> {
    ghost offsets = { λ s. s.offsets.now };

    fn len(&self) -> usize {
        self.offsets.len()
    }

    fn offset(&self, at: usize) -> i32 {
        self.offsets[at]
    }
}
