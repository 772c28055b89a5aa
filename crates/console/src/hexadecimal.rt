// Bytes in hexadecimal.
use std::fmt;
use std::str::from_utf8;

// Two digits for each byte. Only printed: it derives no comparison.
#[derive(Clone, Copy)]
pub struct Hexadecimal<'a>(pub &'a [u8]);

// So many bytes are laid out before they are written, since a number written by itself costs several times its two digits.
const BYTES: usize = 64;

const DIGITS: &[u8; 16] = b"0123456789abcdef";

impl fmt::Display for Hexadecimal<'_> {
    fn fmt<W: fmt::Write>(&self, f: &mut fmt::Formatter<W>) -> fmt::Result {
        for bytes in self.0.chunks(BYTES) {
            let mut text = [0u8; 2 * BYTES];
            for (pair, byte) in text.chunks_exact_mut(2).zip(bytes) {
                pair[0] = DIGITS[(byte / 16) as usize];
                pair[1] = DIGITS[(byte % 16) as usize];
            }
            let digits = &text[..(2 * bytes.len()).min(text.len())];
            f.write_str(from_utf8(digits).map_err(|_| fmt::Error)?)?;
        }
        Ok(())
    }
}
