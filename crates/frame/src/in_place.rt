// Records of an accepted frame read in place, with no question asked again: what a limit reads at every evaluation.
ghost use Rattle.std.specs.Prelude.{◌≡◌, ◌-◌, ◌<◌, Some};
ghost use Rattle.frame.specs.Views.{path_of, nth, offset_in};

use super::view::PathFrame;
use record::layout::SAMPLE_Q;
use record::{Gap, GapWords, RowWords, TorqueRow};
use words::be32;

// Three reads of three kinds at three places: they share no more than the form of the test of the number.
impl PathFrame<'_> {
    /// A gap by its number, or nothing past the last.
    #[tactic(auto, using(crate::proofs::Accepted::header_is, crate::proofs::InPlace::gap_past))]
    pub fn gap(&self, index: usize) -> Option<Gap>
        ensures { result ≡ nth (path_of self.now.bytes.now).gaps index }
    {
        if index >= (self.header.samples as usize).saturating_sub(1) {
            return None;
        }
        Some(self.known_gap(index))
    }

    /// A gap that is there.
    #[tactic(auto, using(crate::proofs::Accepted::header_is, crate::proofs::InPlace::gap_is))]
    pub fn known_gap(&self, index: usize) -> Gap
        requires { index < (path_of self.now.bytes.now).header.samples - 1 }
        ensures { Some result ≡ nth (path_of self.now.bytes.now).gaps index }
    {
        let body = self.body();
        GapWords::at(body.bytes, body.gap_offset(index)).gap
    }

    /// A torque row by its number, or nothing past the last.
    #[tactic(auto, using(crate::proofs::Accepted::header_is, crate::proofs::InPlace::row_past))]
    pub fn row(&self, index: usize) -> Option<TorqueRow>
        ensures { result ≡ nth (path_of self.now.bytes.now).rows index }
    {
        if index >= self.header.rows as usize {
            return None;
        }
        Some(self.known_row(index))
    }

    /// A torque row that is there.
    #[tactic(auto, using(crate::proofs::Accepted::header_is, crate::proofs::InPlace::row_is))]
    pub fn known_row(&self, index: usize) -> TorqueRow
        requires { index < (path_of self.now.bytes.now).header.rows }
        ensures { Some result ≡ nth (path_of self.now.bytes.now).rows index }
    {
        let body = self.body();
        RowWords::at(body.bytes, body.row_offset(index)).into()
    }

    /// The offset q of a sample's average, or nothing past the last sample.
    #[tactic(auto, using(crate::proofs::Accepted::header_is, crate::proofs::InPlace::offset_past))]
    pub fn offset(&self, index: usize) -> Option<i32>
        ensures { result ≡ offset_in (nth (path_of self.now.bytes.now).samples index) }
    {
        if index >= self.header.samples as usize {
            return None;
        }
        Some(self.known_offset(index))
    }

    /// The offset q of the average of a sample that is there.
    #[tactic(auto, using(crate::proofs::Accepted::header_is, crate::proofs::InPlace::offset_is))]
    pub fn known_offset(&self, index: usize) -> i32
        requires { index < (path_of self.now.bytes.now).header.samples }
        ensures { Some result ≡ offset_in (nth (path_of self.now.bytes.now).samples index) }
    {
        let body = self.body();
        be32(body.bytes, body.sample_offset(index) + SAMPLE_Q).cast_signed()
    }
}
