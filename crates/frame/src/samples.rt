// The samples of a frame, as records one behind the other.
ghost use Rattle.std.specs.Prelude.{◌≡◌, ◌<◌};
ghost use Rattle.frame.specs.Layout.{samples_at};
ghost use Rattle.frame.specs.Paths.{at_end_of, sample_place, sample_at_of};

use super::body::Body;
use super::layout::HEADER_SIZE;
use super::records::Records;
use record::layout::SAMPLE_SIZE;
use record::{Sample, SampleFault, SampleWords};
use words::put;

impl<'a> Records<Sample, SampleFault> for Body<'a> {
    ghost source = { λ b. b.bytes.now };

    ghost start = { λ _. samples_at };

    ghost size = { 20 };

    ghost count = { λ b. b.header.samples };

    ghost answer = { λ b i. sample_at_of b.bytes.now b.header i };

    fn count(&self) -> usize {
        self.header.samples as usize
    }

    fn place(&self, index: usize) -> u32 {
        self.sample_offset(index) as u32
    }

    #[tactic(auto, unfolding(crate::specs::Paths::sample_at_of))]
    fn read(&self, index: usize) -> Result<Sample, SampleFault> {
        let end = at_end(self.header.samples as usize, index);
        SampleWords::at(self.bytes, self.sample_offset(index)).read(end)
    }

    #[tactic(auto, using(crate::proofs::Puts::sample_legal, crate::proofs::Puts::sample_again))]
    fn put(&self, index: usize, out: &mut [u8]) {
        let read: Result<Sample, SampleFault> = self.read(index);
        put(out, self.sample_offset(index), &read.unwrap().bytes());
    }
}

impl Body<'_> {
    pub(crate) fn sample_offset(&self, index: usize) -> usize
        requires { index < self.now.header.samples }
        ensures { result ≡ sample_place index }
    {
        HEADER_SIZE + SAMPLE_SIZE * index
    }
}

// Is it the first sample of n, or the last?
fn at_end(n: usize, index: usize) -> bool
    requires { index < n }
    ensures { result ≡ at_end_of n index }
{
    index == 0 || index + 1 == n
}
