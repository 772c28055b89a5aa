// A fault of one record among many of its kind.
#[derive(Clone, Copy, Debug, PartialEq, Eq)]
pub struct RecordFault<F> {
    // The record's number among them, from 0.
    pub index: usize,
    // Where it begins, counted from byte 0 of the frame.
    pub start: u32,
    pub fault: F,
}
