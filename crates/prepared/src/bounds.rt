// What a preparation keeps of each sample and of each torque row. Both lie as a struct of C does, since C may lend the memory.

/// What bounds the speed of a sample beside its cap and floor.
#[derive(Clone, Copy, Debug, PartialEq, Eq)]
#[repr(C)]
pub struct SampleBounds {
    // How far it may lie above the sample before, and above the one after; 0 where there is none.
    pub up: u32,
    pub down: u32,
    // The offset q of its average.
    pub offset: i32,
    // The first row whose gap is not before the sample: how many rows lie at gaps before it.
    pub first_row: u32,
}

/// A torque row as two inequalities at the spacing of the samples:
/// after × (the sample after the gap) ≤ before × (the sample before it) + right, and
/// before × (the sample before the gap) ≤ after × (the sample after it) + left.
#[derive(Clone, Copy, Debug, PartialEq, Eq)]
#[repr(C)]
pub struct RowBounds {
    pub before: u32,
    pub after: u32,
    pub left: i64,
    pub right: i64,
}
