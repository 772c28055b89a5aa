// A torque row as its record lies in a frame, and the questions asked of it.
ghost use Rattle.std.specs.Prelude.{◌≡◌, ◌+◌, ◌≤◌, length};
ghost use Rattle.record.specs.Rows.{row_words_at, row_of, row_read, numbers_read, sizes_read, weight_read, words_of_row, row_bytes};

use super::layout::{ROW_C, ROW_D, ROW_G, ROW_GAP, ROW_HI, ROW_LO, ROW_SIZE, ROW_ZERO};
use torque::{Row, is_small};
use words::{be16, be32};

// A torque row as its record lies in the frame, its signed numbers as bits.
#[derive(Clone, Copy, Debug, PartialEq, Eq)]
pub struct RowWords {
    pub gap: u16,
    pub zero: u16,
    pub d: u32,
    pub c: u32,
    pub g: u32,
    pub lo: u32,
    pub hi: u32,
}

#[derive(Clone, Copy, Debug, PartialEq, Eq)]
pub enum RowFault {
    // There is no such gap.
    Gap,
    // The zero bytes are not zero.
    ZeroBytes,
    // The gap is below that of the row before.
    Order,
    // One of the numbers is too great in size.
    D,
    C,
    G,
    Lo,
    Hi,
    // lo is above hi.
    LoAboveHi,
    // d is zero.
    NoD,
    // d − 2hc is zero, of the other sign than d, or too great in size.
    Weight,
}

// What stands around a row: how many samples the path has, its spacing, and the gap of the row before (0 before the first).
#[derive(Clone, Copy, Debug, PartialEq, Eq)]
pub struct RowPlace {
    pub samples: u16,
    pub spacing: u16,
    pub gap_before: u16,
}

impl RowWords {
    // The record that begins at an offset.
    pub fn at(bytes: &[u8], at: usize) -> RowWords
        requires { at + 24 ≤ length bytes.now }
        ensures { result ≡ row_words_at bytes.now at }
    {
        RowWords {
            gap: be16(bytes, at + ROW_GAP),
            zero: be16(bytes, at + ROW_ZERO),
            d: be32(bytes, at + ROW_D),
            c: be32(bytes, at + ROW_C),
            g: be32(bytes, at + ROW_G),
            lo: be32(bytes, at + ROW_LO),
            hi: be32(bytes, at + ROW_HI),
        }
    }

    // The bytes of the record.
    pub fn bytes(self) -> [u8; ROW_SIZE]
        ensures { result ≡ row_bytes self }
    {
        let [gap1, gap0] = self.gap.to_be_bytes();
        let [z1, z0] = self.zero.to_be_bytes();
        let [d3, d2, d1, d0] = self.d.to_be_bytes();
        let [c3, c2, c1, c0] = self.c.to_be_bytes();
        let [g3, g2, g1, g0] = self.g.to_be_bytes();
        let [l3, l2, l1, l0] = self.lo.to_be_bytes();
        let [h3, h2, h1, h0] = self.hi.to_be_bytes();
        [
            gap1, gap0, z1, z0, d3, d2, d1, d0, c3, c2, c1, c0, g3, g2, g1, g0, l3, l2, l1, l0, h3,
            h2, h1, h0,
        ]
    }

    // The row, or the first question that says no.
    pub fn read(self, place: RowPlace) -> Result<Row, RowFault>
        ensures { result ≡ row_read place self }
    {
        if self.gap as u32 + 2 > place.samples as u32 {
            return Err(RowFault::Gap);
        }
        if self.zero != 0 {
            return Err(RowFault::ZeroBytes);
        }
        if self.gap < place.gap_before {
            return Err(RowFault::Order);
        }
        ask_numbers(Row::from(self), place.spacing)
    }
}

// The row that a record stands for.
impl From<RowWords> for Row {
    ghost from_gives = { λ w r. r ≡ row_of w };

    fn from(words: RowWords) -> Row {
        Row {
            gap: words.gap,
            d: words.d.cast_signed(),
            c: words.c.cast_signed(),
            g: words.g.cast_signed(),
            lo: words.lo.cast_signed(),
            hi: words.hi.cast_signed(),
        }
    }
}

// The row as its record lies in the frame.
impl From<Row> for RowWords {
    ghost from_gives = { λ r w. w ≡ words_of_row r };

    fn from(row: Row) -> RowWords {
        RowWords {
            gap: row.gap,
            zero: 0,
            d: row.d.cast_unsigned(),
            c: row.c.cast_unsigned(),
            g: row.g.cast_unsigned(),
            lo: row.lo.cast_unsigned(),
            hi: row.hi.cast_unsigned(),
        }
    }
}

// What is asked of a row's numbers.
#[tactic(auto, unfolding(crate::specs::Rows::numbers_read))]
fn ask_numbers(row: Row, h: u16) -> Result<Row, RowFault>
    ensures { result ≡ numbers_read h row }
{
    ask_sizes(row)?;
    ask_weight(row, h)
}

// Are the numbers small, and lo at most hi?
fn ask_sizes(row: Row) -> Result<(), RowFault>
    ensures { result ≡ sizes_read row }
{
    if !is_small(row.d) {
        return Err(RowFault::D);
    }
    if !is_small(row.c) {
        return Err(RowFault::C);
    }
    if !is_small(row.g) {
        return Err(RowFault::G);
    }
    if !is_small(row.lo) {
        return Err(RowFault::Lo);
    }
    if !is_small(row.hi) {
        return Err(RowFault::Hi);
    }
    if row.lo > row.hi {
        return Err(RowFault::LoAboveHi);
    }
    Ok(())
}

// Is d not zero, and d − 2hc not zero, of d's sign and small?
fn ask_weight(row: Row, h: u16) -> Result<Row, RowFault>
    ensures { result ≡ weight_read h row }
{
    if row.d == 0 {
        return Err(RowFault::NoD);
    }
    if !row.has_sound_weight(h) {
        return Err(RowFault::Weight);
    }
    Ok(row)
}
