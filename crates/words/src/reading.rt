// Numbers read from a byte string at an offset, the highest byte first.
ghost use Rattle.std.specs.Prelude.{◌≡◌, ℕ, ◌+◌, ◌<◌, ◌≤◌, length};
ghost use Rattle.words.specs.Words.{be16_at, be32_at, Bytes};

// Two widths, one line each: a reader generic in the width would be a third function, under both of these.
pub fn be16(bytes: &[u8], at: usize) -> u16
    requires { at + 2 ≤ length bytes.now }
    ensures { result ≡ be16_at bytes.now at }
{
    u16::from_be_bytes([bytes[at], bytes[at + 1]])
}

pub fn be32(bytes: &[u8], at: usize) -> u32
    requires { at + 4 ≤ length bytes.now }
    ensures { result ≡ be32_at bytes.now at }
{
    u32::from_be_bytes([bytes[at], bytes[at + 1], bytes[at + 2], bytes[at + 3]])
}

// Nothing at run time: it tells a proof that every element of a byte string is below 256.
pub fn see_bytes(bytes: &[u8])
    ensures { Bytes bytes.now }
{
    pass(bytes);
}

// A byte string that was passed is known by its elements' type.
fn pass(_bytes: &[u8]) {}
