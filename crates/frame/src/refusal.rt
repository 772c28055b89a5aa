// A refusal in numbers: which layer, which question, and where.
ghost use Rattle.std.specs.Prelude.{◌≡◌};
ghost use Rattle.frame.specs.Refusals.{refusal_of, framed, recorded};

use super::fault::FrameFault;
use super::layout;
use record::{Fault, RecordFault};
use std::fmt;

/// What a question is about.
#[derive(Clone, Copy, Debug, PartialEq, Eq)]
pub enum Layer {
    Frame,
    Sample,
    Gap,
    Torque,
    Memory,
}

impl fmt::Display for Layer {
    fn fmt<W: fmt::Write>(&self, f: &mut fmt::Formatter<W>) -> fmt::Result {
        f.write_str(match self {
            Layer::Frame => "frame",
            Layer::Sample => "sample",
            Layer::Gap => "gap",
            Layer::Torque => "torque",
            Layer::Memory => "memory",
        })
    }
}

/// The question that said no: its layer, its number, and the offset from byte 0 of the first failing field. The numbers are
/// the format's own, by which refusals are compared; `FrameFault` is what they stand for.
#[derive(Clone, Copy, Debug, PartialEq, Eq)]
pub struct Refusal {
    pub layer: Layer,
    pub number: u8,
    pub place: u64,
}

// A question about the frame itself, by the number that the format gives it.
fn of_frame(number: u8, at: usize) -> Refusal
    ensures { result ≡ framed number at }
{
    Refusal {
        layer: Layer::Frame,
        number,
        place: at as u64,
    }
}

// A question about a record that begins at an offset.
fn of_record<F: Fault>(layer: Layer, found: RecordFault<F>) -> Refusal
    ensures { result ≡ recorded layer found.start (F.asked found.fault) }
{
    let asked = found.fault.asked();
    Refusal {
        layer,
        number: asked.number,
        place: found.start as u64 + asked.offset as u64,
    }
}

impl FrameFault {
    /// The refusal's layer, number and place.
    pub fn refusal(self) -> Refusal
        ensures { result ≡ refusal_of self }
    {
        match self {
            FrameFault::TooShort => of_frame(10, layout::VERSION_AT),
            FrameFault::Version => of_frame(11, layout::VERSION_AT),
            FrameFault::Length => of_frame(12, layout::LENGTH_AT),
            FrameFault::ShortBody => of_frame(13, layout::LENGTH_AT),
            FrameFault::SampleCount => of_frame(14, layout::SAMPLES_AT),
            FrameFault::Spacing => of_frame(15, layout::SPACING_AT),
            FrameFault::Lateral => of_frame(16, layout::LATERAL_AT),
            FrameFault::RowCount => of_frame(17, layout::ROWS_AT),
            FrameFault::Size => of_frame(18, layout::LENGTH_AT),
            FrameFault::Sample(found) => of_record(Layer::Sample, found),
            FrameFault::Gap(found) => of_record(Layer::Gap, found),
            FrameFault::Row(found) => of_record(Layer::Torque, found),
        }
    }
}
