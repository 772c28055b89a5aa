// A count of samples: 2 at least, so that there is a gap, and 4096 at most.
ghost use Rattle.std.specs.Prelude.{◌≤◌};

#[derive(Clone, Copy, Debug, PartialEq, Eq)]
pub struct Samples {
    pub count: usize,
    ghost least: { 2 ≤ count },
    ghost most: { count ≤ 4096 },
}
