// A sample's place: its number, with the frame and the sheets that have it. What is asked of a class and of a squared speed
// alike is written here once.
ghost use Rattle.std.specs.Prelude.{◌≡◌, ℕ};
ghost use Rattle.std.specs.Option.{option_or};
ghost use Rattle.frame.specs.Paths.{Path};
ghost use Rattle.runs.specs.declared.stage.Make.{Make};
ghost use Rattle.runs.specs.Sheets.{Sheets, sheet, cell};
ghost use Rattle.binding.specs.Binding.{bound_of};
ghost use Rattle.binding.specs.Bounds.{allowed, bounds_of};
ghost use Rattle.binding.specs.Clashing.{clash_of};
ghost use Rattle.binding.specs.Questions.{first};

use super::bound::{Bound, Clash, Found};
use super::question::Question;
use runs::Make;

// The place of a sample, of which one make of grade is asked.
pub(crate) trait Place: Copy {
    ghost make: { Make };

    ghost path: { Self → Path };

    ghost sheets: { Self → Sheets };

    ghost number: { Self → ℕ };

    fn make(self) -> Make
        ensures { result ≡ make };

    // The rank of the sample's value.
    fn value(self) -> u32
        ensures { result ≡ (cell (sheet (sheets self) make) (number self)).value };

    // The rank of its floor.
    fn floor(self) -> u32
        ensures { result ≡ (cell (sheet (sheets self) make) (number self)).floor };

    // The first of its bounds that a question is answered yes at.
    fn first(self, question: Question) -> Option<Found>
        ensures { result ≡ first question (allowed (path self) (sheets self) make (number self)) (bounds_of (path self) make) };
}

// The first bound that allows just the sample's value.
pub(crate) fn binding<P: Place>(place: P) -> Option<Bound>
    ensures { result ≡ bound_of (P.path place) (P.sheets place) P.make (P.number place) }
{
    let value = place.value();
    place
        .first(Question::Reaches(value))
        .map(|found| found.bound)
}

// The first bound that allows less than the sample's floor.
pub(crate) fn clash_at<P: Place>(place: P) -> Option<Clash>
    ensures { result ≡ clash_of (P.path place) (P.sheets place) P.make (P.number place) }
{
    let make = place.make();
    let floor = place.floor();
    place.first(Question::FallsShort(floor)).map(|found| Clash {
        make,
        bound: found.bound,
        most: found.most,
        floor,
    })
}

// The clash of the first place, or else of the second.
pub(crate) fn first_clash<A: Place, B: Place>(first: A, second: B) -> Option<Clash>
    ensures { result ≡ option_or (clash_of (A.path first) (A.sheets first) A.make (A.number first)) (clash_of (B.path second) (B.sheets second) B.make (B.number second)) }
{
    clash_at(first).or_else(|| clash_at(second))
}
