// The records of one kind in a frame, one behind the other: one text asks them all, and one writes them all.
ghost use Rattle.std.specs.Prelude.{◌≡◌, ℕ, ◌+◌, ◌*◌, ◌<◌, ◌≤◌, true, List, length, is_ok, Result};
ghost use Rattle.words.specs.Words.{Bytes, slice, written};
ghost use Rattle.frame.specs.Records.{records_read, done, record_at_of};

use record::RecordFault;

// Records are reached by their numbers: there is no slice of them to go over.
pub trait Records<T, F> {
    // The frame's bytes, where the first record begins in them, how many bytes a record has and how many records there are.
    ghost source: { Self → List ℕ };

    ghost start: { Self → ℕ };

    ghost size: { ℕ };

    ghost count: { Self → ℕ };

    // What asking a record answers.
    ghost answer: { Self → ℕ → Result T F };

    fn count(&self) -> usize
        ensures { result ≡ count self.now };

    // Where a record begins.
    fn place(&self, index: usize) -> u32
        requires { index < count self.now }
        ensures { result ≡ start self.now + size * index };

    // The record, or the first question that says no.
    fn read(&self, index: usize) -> Result<T, F>
        requires { index < count self.now }
        ensures { result ≡ answer self.now index };

    // Writes the record where it lies: what stood there in the frame stands there again. Each kind writes its own bytes: one
    // text for all would need a trait over those and a law of what a record that was read writes, for two lines of each kind.
    fn put(&self, index: usize, out: &mut [u8])
        requires bytes { Bytes (source self.now) }
        requires counted { index < count self.now }
        requires accepted { is_ok (answer self.now index) ≡ true }
        requires room { start self.now + size * count self.now ≤ length out.old }
        ensures { out.new ≡ written out.old (start self.now + size * index) (slice (source self.now) (start self.now + size * index) size) };
}

// Asks the records in order: the first that says no.
#[tactic(auto, using(crate::proofs::Asking::at_yes, crate::proofs::Asking::at_err))]
pub(crate) fn check_records<T: Copy, F: Copy, R: Records<T, F>>(
    records: &R,
) -> Result<(), RecordFault<F>>
    ensures { result ≡ done (records_read (λ i. R.Records.start records.now + R.Records.size * i) (R.Records.answer records.now) (R.Records.count records.now) 0) }
{
    for index in 0..records.count() {
        records.read(index).map_err(|fault| RecordFault {
            index,
            start: records.place(index),
            fault,
        })?;
    }
    Ok(())
}

// The record of a number, or nothing past the last; where records were refused, nothing either.
pub(crate) fn record_at<T: Copy, F: Copy, R: Records<T, F>>(records: &R, index: usize) -> Option<T>
    ensures { result ≡ record_at_of (R.Records.answer records.now) (R.Records.count records.now) index }
{
    if index >= records.count() {
        return None;
    }
    records.read(index).ok()
}

// Writes all the records where they lie: what stood there in the frame stands there again.
#[tactic(auto, using(crate::proofs::Runs::one_written))]
pub(crate) fn put_records<T: Copy, F: Copy, R: Records<T, F>>(records: &R, out: &mut [u8])
    requires bytes { Bytes (R.Records.source records.now) }
    requires accepted { (i : ℕ) → i < R.Records.count records.now → is_ok (R.Records.answer records.now i) ≡ true }
    requires source { R.Records.start records.now + R.Records.size * R.Records.count records.now ≤ length (R.Records.source records.now) }
    requires room { R.Records.start records.now + R.Records.size * R.Records.count records.now ≤ length out.old }
    ensures { out.new ≡ written out.old (R.Records.start records.now) (slice (R.Records.source records.now) (R.Records.start records.now) (R.Records.size * R.Records.count records.now)) }
{
    for index in 0..records.count() {
        records.put(index, out);
    }
}
