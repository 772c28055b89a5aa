// A row of torque at a gap, and its products with the spacing h of the samples.
ghost use Rattle.std.specs.Prelude.{◌≡◌, ◌*◌, ◌^◌, ◌≤◌, pos, ◌*ℤ◌, unsigned_abs};
ghost use Rattle.torque.specs.Rows.{weight, room_above_of, room_below_of};
ghost use Rattle.torque.specs.Soundness.{weighing};

// With spacing h a row says 2h × lo ≤ T ≤ 2h × hi of the squared speeds w before the gap and w' after it, where
// T = d × (w' − w) + 2h × (c × w + g).
#[derive(Clone, Copy, Debug, PartialEq, Eq)]
pub struct Row {
    pub gap: u16,
    pub d: i32,
    pub c: i32,
    pub g: i32,
    pub lo: i32,
    pub hi: i32,
}

impl Row {
    // The greatest size of a sound row's numbers.
    pub const SIZE: u32 = 16777216;

    // d − 2hc: what the squared speed before the gap weighs in T, as d is what the one after it does.
    pub fn weight(self, h: u16) -> i64
        ensures { result ≡ weight h self }
    {
        self.d as i64 - scaled(h, self.c as i64)
    }

    // Is the weight not zero, of d's sign and small?
    pub fn has_sound_weight(self, h: u16) -> bool
        ensures { result ≡ weighing self.d (weight h self) }
    {
        let weight = self.weight(h);
        weight != 0 && (self.d < 0) == (weight < 0) && weight.unsigned_abs() <= Row::SIZE as u64
    }

    // 2h × (hi − g): the room that g leaves above. This and the next are one line each, over one `scaled`.
    pub fn room_above(self, h: u16) -> i64
        ensures value { result ≡ room_above_of h self }
        ensures small { unsigned_abs result ≤ 2 ^ 49 }
    {
        scaled(h, self.hi as i64 - self.g as i64)
    }

    // 2h × (g − lo): the room that g leaves below.
    pub fn room_below(self, h: u16) -> i64
        ensures value { result ≡ room_below_of h self }
        ensures small { unsigned_abs result ≤ 2 ^ 49 }
    {
        scaled(h, self.g as i64 - self.lo as i64)
    }
}

// 2h × n. At |n| ≤ 2^32, as for a difference of two of a row's numbers, it stays within 2^49.
fn scaled(h: u16, n: i64) -> i64
    requires { unsigned_abs n ≤ 2 ^ 32 }
    ensures value { result ≡ pos (2 * h) *ℤ n }
    ensures small { unsigned_abs result ≤ 2 ^ 49 }
{
    (2 * h as u32) as i64 * n
}
