// Checking a path frame.
ghost use Rattle.std.specs.Prelude.{◌≡◌};
ghost use Rattle.frame.specs.Paths.{header_of, path_read};
ghost use Rattle.furqyzet_c.specs.Refusals.{reading_words};

use super::refusal_words::RefusalWords;
use frame::read;

#[unsafe(no_mangle)]
pub extern "C" fn furqyzet_check(frame: &[u8], refusal: &mut RefusalWords)
    ensures { refusal.new ≡ reading_words (header_of (path_read frame.now)) }
{
    *refusal = match read(frame) {
        Ok(_) => RefusalWords::of_number(0),
        Err(fault) => RefusalWords::of(fault.refusal()),
    };
}
