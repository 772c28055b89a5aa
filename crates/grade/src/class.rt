// A permit class, from 0 to 7; its rank is the number itself. A type apart from `Speed`: with one number for both a class
// would take four bytes in lent memory, and one type over two numbers would need a trait of numbers whose two impls are as
// long as these.
ghost use Rattle.std.specs.Prelude.{◌≤◌, refl};
ghost use Rattle.grade.specs.Tops.{class_top};
ghost use Rattle.std.proofs.Common.{arith};

use super::grade::{Grade, Raisable};

#[derive(Clone, Copy, Debug, PartialEq, Eq)]
#[repr(C)]
pub struct Class {
    value: u8,
    ghost ok: { value ≤ class_top },
}

impl Class {
    pub const TOP: u8 = 7;
}

impl Grade for Class {
    ghost rank = { λ x. x.value };

    ghost top = { class_top };

    ghost within = { λ x. x.ok };

    ghost apart = { Prim.grind (arith, Self.row.coded.inj) };

    ghost every = { λ k h. (record { value = k; ok = h }, refl) };

    fn rank(self) -> u32 {
        self.value as u32
    }

    fn highest() -> u32 {
        Class::TOP as u32
    }

    fn of_rank(number: u32) -> Class {
        Class {
            value: number as u8,
        }
    }
}

impl Raisable for Class {}
