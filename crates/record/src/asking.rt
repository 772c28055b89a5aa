// Which question each fault of a record answers, and at which field.
ghost use Rattle.std.specs.Prelude.{◌≡◌};
ghost use Rattle.record.specs.declared.asked.Asked.{Asked};
ghost use Rattle.record.specs.Faults.{clause_offset_of, sample_asked, gap_asked, row_asked};

use super::asked::Asked;
use super::gap::GapFault;
use super::layout;
use super::row::RowFault;
use super::sample::SampleFault;
use clause::ClauseFault;

// Why a record is refused.
pub trait Fault {
    ghost asked: { Self → Asked };

    // The question that said no.
    fn asked(self) -> Asked
        ensures { result ≡ asked self };
}

// Of a clause's two numbers, where the one lies that does not fit.
fn clause_offset(fault: ClauseFault) -> usize
    ensures { result ≡ clause_offset_of fault }
{
    match fault {
        ClauseFault::TopSpeedNotFinite
        | ClauseFault::TopSpeedNegative
        | ClauseFault::FixedTooGreat
        | ClauseFault::FirstNotZero => layout::SAMPLE_FIRST,
        ClauseFault::CurvatureNotFinite | ClauseFault::SecondNotZero => layout::SAMPLE_SECOND,
    }
}

impl Fault for SampleFault {
    ghost asked = { sample_asked };

    fn asked(self) -> Asked {
        let (number, offset) = match self {
            SampleFault::Kind => (20, layout::SAMPLE_KIND),
            SampleFault::ZeroByte => (21, layout::SAMPLE_ZERO),
            SampleFault::ClassCap => (22, layout::SAMPLE_CLASS_CAP),
            SampleFault::ClassFloor => (22, layout::SAMPLE_CLASS_FLOOR),
            SampleFault::Clause(fault) => (23, clause_offset(fault)),
            SampleFault::SpeedFloor => (24, layout::SAMPLE_SPEED_FLOOR),
            SampleFault::EndOffset => (25, layout::SAMPLE_Q),
        };
        Asked { number, offset }
    }
}

impl Fault for GapFault {
    ghost asked = { gap_asked };

    fn asked(self) -> Asked {
        let (number, offset) = match self {
            GapFault::Rise => (30, layout::GAP_RISE),
            GapFault::Fall => (30, layout::GAP_FALL),
            GapFault::ZeroBytes => (31, layout::GAP_ZERO),
            GapFault::Up => (32, layout::GAP_UP),
            GapFault::Down => (32, layout::GAP_DOWN),
        };
        Asked { number, offset }
    }
}

impl Fault for RowFault {
    ghost asked = { row_asked };

    fn asked(self) -> Asked {
        let (number, offset) = match self {
            RowFault::Gap => (40, layout::ROW_GAP),
            RowFault::ZeroBytes => (41, layout::ROW_ZERO),
            RowFault::Order => (42, layout::ROW_GAP),
            RowFault::D => (43, layout::ROW_D),
            RowFault::C => (43, layout::ROW_C),
            RowFault::G => (43, layout::ROW_G),
            RowFault::Lo => (43, layout::ROW_LO),
            RowFault::Hi => (43, layout::ROW_HI),
            RowFault::LoAboveHi => (44, layout::ROW_LO),
            RowFault::NoD => (45, layout::ROW_D),
            RowFault::Weight => (46, layout::ROW_D),
        };
        Asked { number, offset }
    }
}
