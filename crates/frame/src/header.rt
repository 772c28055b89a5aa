// What a frame's header tells of the path.
#[derive(Clone, Copy, Debug, PartialEq, Eq)]
pub struct Header {
    // How many samples the path has, 2 to 4096.
    pub samples: u16,
    // The spacing h of the samples.
    pub spacing: u16,
    // The lateral number a: the lateral acceleration that bends may cause, in units of 1/65536 m/s².
    pub lateral: u32,
    // How many torque rows the frame has, at most 8192.
    pub rows: u16,
}
