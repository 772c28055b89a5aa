// The place of a sample in its class sheet. A type apart from a speed's place, which has both sheets: what bounds a class needs
// no speeds, and who asks for it need not have them.
ghost use Rattle.std.specs.Prelude.{◌≡◌, ◌<◌, ◌≤◌, [], length, MatchOption};
ghost use Rattle.grade.specs.Ranks.{class_rank, ranked, ranked_all};
ghost use Rattle.runs.specs.declared.stage.Make.TheVariants.{Classes};
ghost use Rattle.runs.specs.Sheets.{cell};
ghost use Rattle.frame.specs.Views.{path_of};
ghost use Rattle.job.specs.Whole.{sheets_of};

use super::asking::first_in_classes;
use super::bound::Found;
use super::place::Place;
use super::question::Question;
use super::reading::cell_at;
use frame::PathFrame;
use grade::{Cell, Class, Grade};
use runs::Make;
use sources::class_limit;

#[derive(Clone, Copy, Debug, PartialEq, Eq)]
pub(crate) struct ClassPlace<'a> {
    pub(crate) frame: PathFrame<'a>,
    pub(crate) classes: &'a [Cell<Class>],
    pub(crate) at: usize,
    ghost there: { at < length classes.now },
}

impl<'a> ClassPlace<'a> {
    // The place of a number, or nothing where there is no such sample.
    pub(crate) fn find(
        frame: PathFrame<'a>,
        classes: &'a [Cell<Class>],
        at: usize,
    ) -> Option<ClassPlace<'a>>
        ensures { MatchOption result (length classes.now ≤ at) (λ p. (p.frame.bytes.now ≡ frame.entry.bytes.now) × (p.classes.now ≡ classes.now) × (p.at ≡ at)) }
    {
        if at >= classes.len() {
            return None;
        }
        Some(ClassPlace { frame, classes, at })
    }

    pub(crate) fn cell(self) -> Cell<Class>
        ensures { ranked class_rank result ≡ cell (ranked_all class_rank self.entry.classes.now) self.entry.at }
    {
        cell_at(self.classes, self.at)
    }
}

impl<'a> Place for ClassPlace<'a> {
    ghost make = { Classes };

    ghost path = { λ p. path_of p.frame.bytes.now };

    ghost sheets = { λ p. sheets_of p.classes.now [] };

    ghost number = { λ p. p.at };

    fn make(self) -> Make {
        Make::Classes
    }

    fn value(self) -> u32 {
        self.cell().value.rank()
    }

    fn floor(self) -> u32 {
        self.cell().floor.rank()
    }

    fn first(self, question: Question) -> Option<Found> {
        let cap = self.cell().cap;
        let limit = class_limit(self.frame);
        first_in_classes(question, cap, &limit, self.classes, self.at)
    }
}
