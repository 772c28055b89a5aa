// A job at hand, with the frame that it was made of and its memories; it owns them, and is never compared. Where its job is
// released it is taken apart, since what is released borrows the memories.
ghost use Rattle.std.specs.Prelude.{◌≡◌, take, [], ◌∷◌};
ghost use Rattle.frame.specs.Views.{path_of};
ghost use Rattle.job.specs.Holding.{held};
ghost use Rattle.job.specs.Calling.{Does, Lawful};
ghost use Rattle.sources.specs.Sources.{class_number, speed_number};

use frame::PathFrame;
use grade::{Cell, Class, Speed};
use job::Job;
use runs::{Answer, Call};

#[derive(Drop)]
pub struct Live<'a> {
    pub frame: PathFrame<'a>,
    pub job: Job,
    pub classes: Vec<Cell<Class>>,
    pub speeds: Vec<Cell<Speed>>,
}

impl Live<'_> {
    // One call, under the frame's own limits.
    pub fn call(&mut self, call: Call) -> Answer
        ensures does { Does (class_number (path_of self.old.frame.bytes.now)) (speed_number (path_of self.old.frame.bytes.now)) call (held self.old.job self.old.classes.items self.old.speeds.items) (held self.new.job self.new.classes.items self.new.speeds.items) result }
        ensures frame { self.new.frame.bytes.now ≡ self.old.frame.bytes.now }
        ensures law { Lawful (class_number (path_of self.old.frame.bytes.now)) (speed_number (path_of self.old.frame.bytes.now)) (call ∷ []) (held self.old.job self.old.classes.items self.old.speeds.items) (held self.new.job self.new.classes.items self.new.speeds.items) }
    {
        planner::call(
            self.frame,
            &mut self.job,
            self.classes.as_mut_slice(),
            self.speeds.as_mut_slice(),
            call,
        )
    }

    // Of a memory of this job, the cells of the samples, or all where there are fewer.
    pub fn of_samples<'c, G>(&self, cells: &'c [Cell<G>]) -> &'c [Cell<G>]
        ensures { result.now ≡ take self.now.job.samples.count cells.now }
    {
        &cells[..self.job.samples().count.min(cells.len())]
    }
}
