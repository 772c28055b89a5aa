// A sample of a path: what bounds its class and its speed, and how far its speed may lie above the average of its neighbours.
ghost use Rattle.std.specs.Prelude.{◌≡◌, ◌+◌, ◌≤◌, length};
ghost use Rattle.record.specs.declared.sample.SampleFault.TheVariants.{Kind, Clause};
ghost use Rattle.clause.specs.Clauses.{Legal};
ghost use Rattle.record.specs.Samples.{sample_words_at, sample_read, words_of_sample, sample_bytes};

use super::layout::{
    CLASS_TOP, SAMPLE_CLASS_CAP, SAMPLE_CLASS_FLOOR, SAMPLE_FIRST, SAMPLE_KIND, SAMPLE_Q,
    SAMPLE_SECOND, SAMPLE_SIZE, SAMPLE_SPEED_FLOOR, SAMPLE_ZERO,
};
use caps::MOST;
use clause::{CapClause, ClauseFault, ClauseKind, ClauseWords, UnknownKind};
use words::be32;

// A sample as its record lies in the frame.
#[derive(Clone, Copy, Debug, PartialEq, Eq)]
pub struct SampleWords {
    pub clause: ClauseWords,
    pub class_cap: u8,
    pub class_floor: u8,
    pub zero: u8,
    pub speed_floor: u32,
    pub q: u32,
}

#[derive(Clone, Copy, Debug, PartialEq)]
pub struct Sample {
    pub clause: CapClause,
    pub class_cap: u8,
    pub class_floor: u8,
    // In units of 1/65536 m²/s².
    pub speed_floor: u32,
    // The offset of the sample's average, in the same units; 0 at the first sample and the last.
    pub q: i32,
}

#[derive(Clone, Copy, Debug, PartialEq, Eq)]
pub enum SampleFault {
    // The kind is none of 0 to 3.
    Kind,
    // The zero byte is not zero.
    ZeroByte,
    ClassCap,
    ClassFloor,
    // A number does not fit the kind.
    Clause(ClauseFault),
    SpeedFloor,
    // A q at the first or the last sample.
    EndOffset,
}

// Conversions by hand: derived ones do not say which variant they give.
impl From<UnknownKind> for SampleFault {
    ghost from_gives = { λ _ r. r ≡ Kind };

    fn from(_: UnknownKind) -> SampleFault {
        SampleFault::Kind
    }
}

impl From<ClauseFault> for SampleFault {
    ghost from_gives = { λ e r. r ≡ Clause e };

    fn from(fault: ClauseFault) -> SampleFault {
        SampleFault::Clause(fault)
    }
}

impl SampleWords {
    // The record that begins at an offset.
    pub fn at(bytes: &[u8], at: usize) -> SampleWords
        requires { at + 20 ≤ length bytes.now }
        ensures { result ≡ sample_words_at bytes.now at }
    {
        SampleWords {
            clause: ClauseWords {
                kind: bytes[at + SAMPLE_KIND],
                first: be32(bytes, at + SAMPLE_FIRST),
                second: be32(bytes, at + SAMPLE_SECOND),
            },
            class_cap: bytes[at + SAMPLE_CLASS_CAP],
            class_floor: bytes[at + SAMPLE_CLASS_FLOOR],
            zero: bytes[at + SAMPLE_ZERO],
            speed_floor: be32(bytes, at + SAMPLE_SPEED_FLOOR),
            q: be32(bytes, at + SAMPLE_Q),
        }
    }

    // The sample, or the first question that says no; the first and the last sample of a path are at its ends.
    pub fn read(self, at_end: bool) -> Result<Sample, SampleFault>
        ensures { result ≡ sample_read at_end self }
    {
        ClauseKind::try_from(self.clause.kind)?;
        if self.zero != 0 {
            return Err(SampleFault::ZeroByte);
        }
        if self.class_cap > CLASS_TOP {
            return Err(SampleFault::ClassCap);
        }
        if self.class_floor > CLASS_TOP {
            return Err(SampleFault::ClassFloor);
        }
        let clause = CapClause::try_from(self.clause)?;
        if self.speed_floor > MOST {
            return Err(SampleFault::SpeedFloor);
        }
        if at_end && self.q != 0 {
            return Err(SampleFault::EndOffset);
        }
        Ok(Sample {
            clause,
            class_cap: self.class_cap,
            class_floor: self.class_floor,
            speed_floor: self.speed_floor,
            q: self.q.cast_signed(),
        })
    }
}

impl Sample {
    // The bytes of the record.
    pub fn bytes(self) -> [u8; SAMPLE_SIZE]
        requires { Legal self.clause }
        ensures { result ≡ sample_bytes (words_of_sample self) }
    {
        let clause = self.clause.words();
        let [f3, f2, f1, f0] = clause.first.to_be_bytes();
        let [s3, s2, s1, s0] = clause.second.to_be_bytes();
        let [v3, v2, v1, v0] = self.speed_floor.to_be_bytes();
        let [q3, q2, q1, q0] = self.q.cast_unsigned().to_be_bytes();
        [
            clause.kind,
            self.class_cap,
            self.class_floor,
            0,
            f3,
            f2,
            f1,
            f0,
            s3,
            s2,
            s1,
            s0,
            v3,
            v2,
            v1,
            v0,
            q3,
            q2,
            q1,
            q0,
        ]
    }
}
