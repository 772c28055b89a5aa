// What a grade is, and which grades can be raised.
ghost use Rattle.std.specs.Prelude.{◌≡◌, ℕ, ◌+◌, ◌≤◌, min};

// A grade is a value that a sample can have. Grades of one make compare by rank, a whole number from 0 to the make's
// top, and every number from 0 to the top is the rank of just one grade.
pub trait Grade: Copy {
    ghost rank: { Self → ℕ };

    ghost top: { ℕ };

    fn rank(self) -> u32
        ensures { result ≡ rank self };

    // The top, as a number.
    fn highest() -> u32
        ensures { result ≡ top };

    // The grade of a rank that is known to be within the top; `from_rank` asks for that first.
    fn of_rank(number: u32) -> Self
        requires { number ≤ top }
        ensures { rank result ≡ number };

    ghost within: { (x : Self) → rank x ≤ top };

    ghost apart: { (x y : Self) → rank x ≡ rank y → x ≡ y };

    ghost every: { (k : ℕ) → k ≤ top → (x : Self) × (rank x ≡ k) };
}

// A grade that can be raised: raising by k adds k to its rank and stops at the top. One text serves every make.
pub trait Raisable: Grade {
    fn raise(self, by: u32) -> Self
        ensures { Self.rank result ≡ min (Self.rank self + by) Self.top }
    {
        Self::of_rank(self.rank().saturating_add(by).min(Self::highest()))
    }
}
