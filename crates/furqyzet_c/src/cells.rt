// The cells of a memory that C lends, one struct for each make: a struct with a type parameter does not cross.
use grade::{Class, Speed};

#[derive(Clone, Copy, Debug, PartialEq, Eq)]
#[repr(C)]
pub struct ClassCell {
    pub value: Class,
    pub cap: Class,
    pub floor: Class,
}

#[derive(Clone, Copy, Debug, PartialEq, Eq)]
#[repr(C)]
pub struct SpeedCell {
    pub value: Speed,
    pub cap: Speed,
    pub floor: Speed,
}
