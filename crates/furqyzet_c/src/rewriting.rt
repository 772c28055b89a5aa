// A frame's records written again.
ghost use Rattle.std.specs.Prelude.{◌≡◌};
ghost use Rattle.furqyzet_c.specs.Rewriting.{fault_words, RewritesWords};

use super::refusal_words::RefusalWords;
use frame::{RewriteFault, WriteFault, rewrite};

fn fault_words(fault: RewriteFault) -> RefusalWords
    ensures { result ≡ fault_words fault }
{
    match fault {
        RewriteFault::Frame(fault) => RefusalWords::of(fault.refusal()),
        RewriteFault::Memory => RefusalWords::of_number(WriteFault::Memory.number()),
    }
}

#[unsafe(no_mangle)]
pub extern "C" fn furqyzet_rewrite(frame: &[u8], out: &mut [u8], refusal: &mut RefusalWords) -> u64
    ensures { RewritesWords frame.now out.old out.new result refusal.new }
{
    match rewrite(frame, out) {
        Ok(size) => {
            *refusal = RefusalWords::of_number(0);
            size as u64
        }
        Err(fault) => {
            *refusal = fault_words(fault);
            0
        }
    }
}
