// The setpoint frame, written into lent memory.
ghost use Rattle.std.specs.Prelude.{◌≡◌, ◌≤◌, ◌++◌, length, drop, OnOk};
ghost use Rattle.words.specs.Words.{written};
ghost use Rattle.grade.specs.Ranks.{class_rank, speed_rank};
ghost use Rattle.setpoint.specs.Frames.{setpoint, setpoints, header, profile, frame_size_of};
ghost use Rattle.setpoint.specs.Writing.{size_of, frame_of, memory_asked, write_answer, memory_after};

use super::fault::SetpointFault;
use super::layout;
use super::released::Released;
use super::speeds::sent_speed;
use grade::{Class, Grade, Speed};
use runs::Samples;
use words::put;

// The version, the length of what follows it, and the count of samples.
fn header_bytes(samples: Samples) -> [u8; layout::HEADER_SIZE]
    ensures { result ≡ header samples.count }
{
    let count = samples.count as u16;
    let length = layout::COUNT_SIZE + layout::SETPOINT_SIZE as u32 * count as u32;
    let [l3, l2, l1, l0] = length.to_be_bytes();
    let [n1, n0] = count.to_be_bytes();
    [layout::VERSION, l3, l2, l1, l0, n1, n0]
}

// The class of a sample, and the speed that is sent for its squared speed.
fn setpoint_bytes(class: Class, squared: Speed) -> [u8; layout::SETPOINT_SIZE]
    ensures { result ≡ setpoint (class_rank class) (speed_rank squared) }
{
    let [high, low] = sent_speed(squared).to_be_bytes();
    [class.rank() as u8, high, low]
}

// Does a memory of so many bytes hold the frame of so many samples?
pub(crate) fn ask_memory(samples: Samples, room: usize) -> Result<(), SetpointFault>
    ensures is { result ≡ memory_asked samples.count room }
    ensures fits { OnOk result (frame_size_of samples.count ≤ room) }
{
    if room < layout::frame_size(samples) {
        return Err(SetpointFault::NoSetpointMemory);
    }
    Ok(())
}

impl Released<'_> {
    // How many bytes the setpoint frame has.
    pub fn frame_size(&self) -> usize
        ensures { result ≡ size_of self.now }
    {
        layout::frame_size(self.samples)
    }

    // Writes the setpoints behind the header.
    fn put_setpoints(&self, out: &mut [u8])
        requires { size_of self.now ≤ length out.old }
        ensures { out.new ≡ written out.old 7 (setpoints (profile class_rank self.now.classes.now) (profile speed_rank self.now.speeds.now)) }
    {
        // By offsets and no `chunks_exact_mut`: of memory written through its chunks no elements are known afterwards.
        for (i, (class, speed)) in self.classes.iter().zip(self.speeds).enumerate() {
            let at = layout::HEADER_SIZE + layout::SETPOINT_SIZE * i;
            put(out, at, &setpoint_bytes(class.value, speed.value));
        }
    }

    // Writes the frame, for which there is room, and says how many bytes it has.
    pub(crate) fn put_frame(&self, out: &mut [u8]) -> usize
        requires { size_of self.now ≤ length out.old }
        ensures size { result ≡ size_of self.now }
        ensures memory { out.new ≡ frame_of self.now ++ drop (size_of self.now) out.old }
    {
        put(out, layout::VERSION_AT, &header_bytes(self.samples));
        self.put_setpoints(out);
        self.frame_size()
    }

    // Writes the setpoint frame and says how many bytes it has, the bytes past it untouched; where the memory is too
    // short, nothing changes.
    pub fn write_setpoints(&self, out: &mut [u8]) -> Result<usize, SetpointFault>
        ensures is { result ≡ write_answer self.now (length out.old) }
        ensures memory { out.new ≡ memory_after self.now out.old }
    {
        ask_memory(self.samples, out.len())?;
        Ok(self.put_frame(out))
    }
}
