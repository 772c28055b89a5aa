// The place of a sample in both sheets, of which its squared speed is bounded.
ghost use Rattle.std.specs.Prelude.{◌≡◌, ◌<◌, ◌≤◌, ◌⊎◌, length, MatchOption};
ghost use Rattle.grade.specs.Ranks.{speed_rank, ranked, ranked_all};
ghost use Rattle.runs.specs.declared.stage.Make.TheVariants.{Speeds};
ghost use Rattle.runs.specs.Sheets.{cell};
ghost use Rattle.frame.specs.Views.{path_of};
ghost use Rattle.job.specs.Whole.{sheets_of};

use super::asking::first_in_speeds;
use super::bound::Found;
use super::classes::ClassPlace;
use super::place::Place;
use super::question::Question;
use super::reading::cell_at;
use frame::PathFrame;
use grade::{Cell, Class, Grade, Speed};
use job::top_speed;
use runs::Make;
use sources::speed_limit;

#[derive(Clone, Copy, Debug, PartialEq, Eq)]
pub(crate) struct SpeedPlace<'a> {
    pub(crate) of_class: ClassPlace<'a>,
    pub(crate) speeds: &'a [Cell<Speed>],
    ghost there: { of_class.at < length speeds.now },
}

impl<'a> SpeedPlace<'a> {
    // The place of a number, or nothing where a sheet has no such sample.
    pub(crate) fn find(
        frame: PathFrame<'a>,
        classes: &'a [Cell<Class>],
        speeds: &'a [Cell<Speed>],
        at: usize,
    ) -> Option<SpeedPlace<'a>>
        ensures { MatchOption result ((length classes.now ≤ at) ⊎ (length speeds.now ≤ at)) (λ p. (p.of_class.frame.bytes.now ≡ frame.entry.bytes.now) × (p.of_class.classes.now ≡ classes.now) × (p.speeds.now ≡ speeds.now) × (p.of_class.at ≡ at)) }
    {
        let of_class = ClassPlace::find(frame, classes, at)?;
        if at >= speeds.len() {
            return None;
        }
        Some(SpeedPlace { of_class, speeds })
    }

    fn cell(self) -> Cell<Speed>
        ensures { ranked speed_rank result ≡ cell (ranked_all speed_rank self.entry.speeds.now) self.entry.of_class.at }
    {
        cell_at(self.speeds, self.of_class.at)
    }
}

impl<'a> Place for SpeedPlace<'a> {
    ghost make = { Speeds };

    ghost path = { λ p. path_of p.of_class.frame.bytes.now };

    ghost sheets = { λ p. sheets_of p.of_class.classes.now p.speeds.now };

    ghost number = { λ p. p.of_class.at };

    fn make(self) -> Make {
        Make::Speeds
    }

    fn value(self) -> u32 {
        self.cell().value.rank()
    }

    fn floor(self) -> u32 {
        self.cell().floor.rank()
    }

    fn first(self, question: Question) -> Option<Found> {
        let cap = self.cell().cap;
        let granted = top_speed(self.of_class.cell().value);
        let limit = speed_limit(self.of_class.frame);
        first_in_speeds(
            question,
            cap,
            granted,
            &limit,
            self.speeds,
            self.of_class.at,
        )
    }
}
