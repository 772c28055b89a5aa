// A frame read, or why it is refused.
ghost use Rattle.std.specs.Prelude.{◌≡◌, ◌↔◌, true, IsOk, IfOk};
ghost use Rattle.frame.specs.Paths.{accepted};

use super::stop::{Stop, reported};
use frame::{PathFrame, Refusal};
use std::fmt;

// Says which question refuses a frame, and what it asks: the stop for it.
pub fn refuse<Q: fmt::Display + Drop>(rt: &HostRuntime, refusal: Refusal, question: Q) -> Stop {
    let Refusal {
        layer,
        number,
        place,
    } = refusal;
    let printed = println!(rt;
        "refused: layer {layer}, question {number}, at byte {place}\n{question}"
    );
    reported(printed)
}

// The view of bytes that the reader accepts.
pub fn accept<'a>(rt: &HostRuntime, bytes: &'a [u8]) -> Result<PathFrame<'a>, Stop>
    ensures accepts { IsOk result ↔ (accepted bytes.now ≡ true) }
    ensures view { IfOk result (λ frame. frame.bytes.now ≡ bytes.now) }
{
    let frame = PathFrame::read(bytes).map_err(|fault| refuse(rt, fault.refusal(), fault))?;
    Ok(frame)
}
