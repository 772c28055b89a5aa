// The constraints that bound a sample's value from above.
use runs::Make;

/// What can hold a value down.
#[derive(Clone, Copy, Debug, PartialEq, Eq)]
pub enum Bound {
    // The cap in the sample's cell.
    Cap,
    // What the class table grants the sample's class; of squared speeds only.
    Class,
    // The sample before, raised by up or rise of the gap between.
    RampBefore,
    // The sample after, raised by down or fall of the gap between.
    RampAfter,
    // The mean of both neighbours with q; of squared speeds only.
    Average,
    // A torque row, by its number in the frame; of squared speeds only.
    TorqueRow(usize),
}

// A bound with what it allows; nothing where nothing fits.
#[derive(Clone, Copy, Debug, PartialEq, Eq)]
pub(crate) struct Found {
    pub(crate) bound: Bound,
    pub(crate) most: Option<u32>,
}

/// A bound below a floor.
#[derive(Clone, Copy, Debug, PartialEq, Eq)]
pub struct Clash {
    pub make: Make,
    pub bound: Bound,
    // What the bound allows; nothing where nothing fits.
    pub most: Option<u32>,
    pub floor: u32,
}
