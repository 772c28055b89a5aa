// A squared speed, from 0 to 2147483647, in units of 1/65536 m²/s²; its rank is the number itself.
ghost use Rattle.std.specs.Prelude.{◌≤◌, refl};
ghost use Rattle.grade.specs.Tops.{speed_top};
ghost use Rattle.std.proofs.Common.{arith};

use super::grade::{Grade, Raisable};

#[derive(Clone, Copy, Debug, PartialEq, Eq)]
#[repr(C)]
pub struct Speed {
    value: u32,
    ghost ok: { value ≤ speed_top },
}

impl Speed {
    pub const TOP: u32 = 2147483647;
}

impl Grade for Speed {
    ghost rank = { λ x. x.value };

    ghost top = { speed_top };

    ghost within = { λ x. x.ok };

    ghost apart = { Prim.grind (arith, Self.row.coded.inj) };

    ghost every = { λ k h. (record { value = k; ok = h }, refl) };

    fn rank(self) -> u32 {
        self.value
    }

    fn highest() -> u32 {
        Speed::TOP
    }

    fn of_rank(number: u32) -> Speed {
        Speed { value: number }
    }
}

impl Raisable for Speed {}
