// The number of the question that a fault answers, and where in its record the failing field lies.
ghost use Rattle.std.specs.Prelude.{◌<◌};

// A question's number and the failing field's offset from the record's first byte. Both are the format's own: refusals are
// printed and compared by them.
#[derive(Clone, Copy, Debug, PartialEq, Eq)]
pub struct Asked {
    pub number: u8,
    pub offset: usize,
    // A record is shorter.
    ghost within: { offset < 64 },
}
