// What a cut or a lift of a cell means for the job.
ghost use Rattle.std.specs.Prelude.{◌≡◌, ◌<◌, length};
ghost use Rattle.grade.specs.Ranks.{ranked_all};
ghost use Rattle.runs.specs.declared.stage.Make.{Make};
ghost use Rattle.runs.specs.Sheets.{Sheets, sheet};
ghost use Rattle.runs.specs.Jobs.{job};
ghost use Rattle.runs.specs.Calls.{cut, lifted, reopened};
ghost use Rattle.job.specs.Changes.{with_sheet};

use super::job::Job;
use grade::{Cell, Grade};
use runs::{Make, Stage};
use sweep::{Cutting, FRESH, Lifting, cut_cell, lift_cell};

impl Job {
    // The work on a make, a value of which a cut lowered, opens again.
    fn reopen(&mut self, make: Make)
        ensures samples { self.new.samples ≡ self.old.samples }
        ensures reopened { (S : Sheets) → job self.new.stage self.new.sweep S ≡ reopened make self.old.stage self.old.sweep S }
    {
        match (make, self.stage) {
            (Make::Classes, Stage::Working(Make::Classes)) => self.sweep.marked = true,
            (Make::Speeds, Stage::Working(Make::Speeds)) => self.sweep.marked = true,
            (Make::Classes, Stage::Working(Make::Speeds)) | (_, Stage::Settled) => {
                self.stage = Stage::Working(make);
                self.sweep = FRESH;
            }
            (Make::Speeds, Stage::Working(Make::Classes)) | (_, Stage::Impossible(_)) => {}
        }
    }

    // The cap of a sample of one make falls to a grade. At an index of its sheet: a cell alone would leave the contract no
    // sheet to speak of, here and in `lift`.
    pub(crate) fn cut<G: Grade>(&mut self, make: Make, cells: &mut [Cell<G>], at: usize, to: G)
        requires { at < length cells.old }
        ensures samples { self.new.samples ≡ self.old.samples }
        ensures cut { (S : Sheets) → sheet S make ≡ ranked_all G.Grade.rank cells.old → job self.new.stage self.new.sweep (with_sheet make (ranked_all G.Grade.rank cells.new) S) ≡ cut make at (G.Grade.rank to) (job self.old.stage self.old.sweep S) }
    {
        match cut_cell(&mut cells[at], to) {
            Cutting::Slack => {}
            Cutting::Lowering => self.reopen(make),
            Cutting::Clash => self.stage = Stage::Impossible(at),
        }
    }

    // The floor of a sample rises to a grade, whichever make the cells are of.
    pub(crate) fn lift<G: Grade>(&mut self, cells: &mut [Cell<G>], at: usize, to: G)
        requires { at < length cells.old }
        ensures samples { self.new.samples ≡ self.old.samples }
        ensures lifted { (m : Make) (S : Sheets) → sheet S m ≡ ranked_all G.Grade.rank cells.old → job self.new.stage self.new.sweep (with_sheet m (ranked_all G.Grade.rank cells.new) S) ≡ lifted m at (G.Grade.rank to) (job self.old.stage self.old.sweep S) }
    {
        match lift_cell(&mut cells[at], to) {
            Lifting::Slack => {}
            Lifting::Clash => self.stage = Stage::Impossible(at),
        }
    }
}
