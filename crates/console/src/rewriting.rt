// `furqyzet rewrite`: the records of a frame written to another file.
use super::files::{load, store};
use super::reading::refuse;
use super::stop::Stop;
use frame::{RewriteFault, WriteFault, rewrite};

pub fn rewrite_file(rt: &HostRuntime, path: &str, out: &str) -> Result<(), Stop> {
    let bytes = load(rt, path)?;
    let mut memory = vec![in rt.alloc(); 0u8; bytes.len()]?;
    match rewrite(bytes.as_slice(), memory.as_mut_slice()) {
        Ok(size) => {
            store(rt, out, memory.as_slice())?;
            println!(rt; "written: {size} bytes to {out}")?;
            Ok(())
        }
        Err(RewriteFault::Frame(fault)) => Err(refuse(rt, fault.refusal(), fault)),
        Err(RewriteFault::Memory) => {
            let fault = WriteFault::Memory;
            println!(rt; "refused: question {}: {fault}", fault.number())?;
            Err(Stop::Reported)
        }
    }
}
