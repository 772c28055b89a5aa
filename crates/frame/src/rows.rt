// The torque rows of a frame, as records one behind the other.
ghost use Rattle.std.specs.Prelude.{◌≡◌, ◌+◌, ◌-◌, ◌*◌, ◌<◌};
ghost use Rattle.frame.specs.Layout.{rows_at};
ghost use Rattle.frame.specs.Paths.{row_at, row_around};

use super::body::Body;
use super::records::Records;
use record::layout::ROW_SIZE;
use record::{RowFault, RowPlace, RowWords, TorqueRow};
use words::{be16, put};

impl<'a> Records<TorqueRow, RowFault> for Body<'a> {
    ghost source = { λ b. b.bytes.now };

    ghost start = { λ b. rows_at b.header.samples };

    ghost size = { 24 };

    ghost count = { λ b. b.header.rows };

    ghost answer = { λ b i. row_at b.bytes.now b.header i };

    fn count(&self) -> usize {
        self.header.rows as usize
    }

    fn place(&self, index: usize) -> u32 {
        self.row_offset(index) as u32
    }

    #[tactic(auto, unfolding(crate::specs::Paths::row_at))]
    fn read(&self, index: usize) -> Result<TorqueRow, RowFault> {
        RowWords::at(self.bytes, self.row_offset(index)).read(self.row_place(index))
    }

    fn put(&self, index: usize, out: &mut [u8]) {
        let read: Result<TorqueRow, RowFault> = self.read(index);
        put(
            out,
            self.row_offset(index),
            &RowWords::from(read.unwrap()).bytes(),
        );
    }
}

impl Body<'_> {
    pub(crate) fn row_offset(&self, index: usize) -> usize
        requires { index < self.now.header.rows }
        ensures { result ≡ rows_at self.now.header.samples + 24 * index }
    {
        self.header.rows_offset() + ROW_SIZE * index
    }

    // What stands around a row.
    fn row_place(&self, index: usize) -> RowPlace
        requires { index < self.now.header.rows }
        ensures { result ≡ row_around self.now.bytes.now self.now.header index }
    {
        RowPlace {
            samples: self.header.samples,
            spacing: self.header.spacing,
            gap_before: if index == 0 {
                0
            } else {
                be16(self.bytes, self.row_offset(index - 1))
            },
        }
    }
}
