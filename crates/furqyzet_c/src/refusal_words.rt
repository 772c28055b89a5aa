// A refusal in the words that C reads.
ghost use Rattle.std.specs.Prelude.{◌≡◌};
ghost use Rattle.furqyzet_c.specs.Refusals.{layer_number, refusal_words, of_number};

use frame::{Layer, Refusal};

#[derive(Clone, Copy, Debug, PartialEq, Eq)]
#[repr(C)]
pub struct RefusalWords {
    pub layer: u32,
    pub number: u32,
    pub place: u64,
}

// A layer's number in C.
fn layer_number(layer: Layer) -> u32
    ensures { result ≡ layer_number layer }
{
    match layer {
        Layer::Frame => 0,
        Layer::Sample => 1,
        Layer::Gap => 2,
        Layer::Torque => 3,
        Layer::Memory => 4,
    }
}

// The number of no layer.
const NO_LAYER: u32 = 5;

// The number of the question whether words are a job's.
pub(crate) const NO_JOB: u8 = 255;

impl RefusalWords {
    pub(crate) fn of(refusal: Refusal) -> RefusalWords
        ensures { result ≡ refusal_words refusal }
    {
        RefusalWords {
            layer: layer_number(refusal.layer),
            number: refusal.number as u32,
            place: refusal.place,
        }
    }

    // A question of no layer; where the number is 0, none says no.
    pub(crate) fn of_number(number: u8) -> RefusalWords
        ensures { result ≡ of_number number }
    {
        RefusalWords {
            layer: NO_LAYER,
            number: number as u32,
            place: 0,
        }
    }
}
