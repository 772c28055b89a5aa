// The gaps of a frame, as records one behind the other.
ghost use Rattle.std.specs.Prelude.{◌≡◌, ◌+◌, ◌-◌, ◌*◌, ◌<◌};
ghost use Rattle.frame.specs.Layout.{gaps_at};
ghost use Rattle.frame.specs.Paths.{gap_at};

use super::body::Body;
use super::layout::HEADER_SIZE;
use super::records::Records;
use record::layout::{GAP_SIZE, SAMPLE_SIZE};
use record::{Gap, GapFault, GapWords};
use words::put;

impl<'a> Records<Gap, GapFault> for Body<'a> {
    ghost source = { λ b. b.bytes.now };

    ghost start = { λ b. gaps_at b.header.samples };

    ghost size = { 12 };

    ghost count = { λ b. b.header.samples - 1 };

    ghost answer = { λ b i. gap_at b.bytes.now b.header i };

    fn count(&self) -> usize {
        self.header.samples.saturating_sub(1) as usize
    }

    fn place(&self, index: usize) -> u32 {
        self.gap_offset(index) as u32
    }

    #[tactic(auto, unfolding(crate::specs::Paths::gap_at))]
    fn read(&self, index: usize) -> Result<Gap, GapFault> {
        GapWords::at(self.bytes, self.gap_offset(index)).read()
    }

    #[tactic(auto, using(crate::proofs::Puts::gap_again))]
    fn put(&self, index: usize, out: &mut [u8]) {
        let read: Result<Gap, GapFault> = self.read(index);
        put(out, self.gap_offset(index), &read.unwrap().bytes());
    }
}

impl Body<'_> {
    pub(crate) fn gap_offset(&self, index: usize) -> usize
        requires { index < self.now.header.samples }
        ensures { result ≡ gaps_at self.now.header.samples + 12 * index }
    {
        HEADER_SIZE + SAMPLE_SIZE * self.header.samples as usize + GAP_SIZE * index
    }
}
