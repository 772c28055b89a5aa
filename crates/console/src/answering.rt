// Answers of a script's calls that a frame alone gives, one to a line.
ghost use Rattle.std.specs.Prelude.{ℕ, Result};
ghost use Rattle.frame.specs.declared.rewriting.RewriteFault.{RewriteFault};
ghost use Rattle.frame.specs.Rewrites.{Rewrites};

use super::hexadecimal::Hexadecimal;
use frame::{Refusal, RewriteFault, WriteFault, rewrite};
use std::io;

// A refused frame, with its layer.
pub fn print_unmade(rt: &HostRuntime, refusal: Refusal) -> io::Result<()> {
    let Refusal {
        layer,
        number,
        place,
    } = refusal;
    println!(rt; "refuse {layer} {number} {place}")
}

// Any other refusal, by the number that the answer of a script has: its question has no place in the frame.
pub fn print_refused(rt: &HostRuntime, number: u8) -> io::Result<()> {
    println!(rt; "refuse - {number} 0")
}

// A count of bytes written, and all bytes of the memory.
pub fn print_written(rt: &HostRuntime, size: usize, memory: &[u8]) -> io::Result<()> {
    let digits = Hexadecimal(memory);
    println!(rt; "written {size} {digits}")
}

// The frame's records written into lent memory, and the answer of that.
pub fn write_path(rt: &HostRuntime, frame: &[u8], memory: &mut [u8]) -> io::Result<()>
    ensures { (outcome : Result ℕ RewriteFault) × Rewrites frame.now memory.old memory.new outcome }
{
    match rewrite(frame, memory) {
        Ok(size) => print_written(rt, size, memory),
        Err(RewriteFault::Frame(fault)) => print_unmade(rt, fault.refusal()),
        Err(RewriteFault::Memory) => print_refused(rt, WriteFault::Memory.number()),
    }
}
