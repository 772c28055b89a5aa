// A call in the words that C writes.
ghost use Rattle.std.specs.Prelude.{◌≡◌};
ghost use Rattle.furqyzet_c.specs.Calls.{make_in, call_in};

use runs::{Call, Make};

#[derive(Clone, Copy, Debug, PartialEq, Eq)]
#[repr(C)]
pub struct CallWords {
    pub sample: u64,
    // A cut's or a lift's value; of an advance its allowance.
    pub value: u64,
    pub kind: u8,
    pub make: u8,
}

pub(crate) fn make_in(make: u8) -> Option<Make>
    ensures { result ≡ make_in make }
{
    match make {
        0 => Some(Make::Classes),
        1 => Some(Make::Speeds),
        _ => None,
    }
}

impl CallWords {
    // The call whose words they are, or nothing where the kind or the make is none.
    pub(crate) fn call(self) -> Option<Call>
        ensures { result ≡ call_in self }
    {
        let make = make_in(self.make)?;
        match self.kind {
            0 => Some(Call::Advance(self.value)),
            1 => Some(Call::Cut(make, self.sample, self.value)),
            2 => Some(Call::Lift(make, self.sample, self.value)),
            3 => Some(Call::Look(self.sample)),
            _ => None,
        }
    }
}
