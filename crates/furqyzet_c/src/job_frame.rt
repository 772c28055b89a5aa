// The frame of a job, as it lies or prepared: what calls on the job are made under.
ghost use Rattle.std.specs.Prelude.{[], ◌∷◌};
ghost use Rattle.frame.specs.Paths.{Path};
ghost use Rattle.frame.specs.Views.{path_of};
ghost use Rattle.sources.specs.Sources.{class_number, speed_number};
ghost use Rattle.job.specs.Holding.{held};
ghost use Rattle.job.specs.Calling.{Does, Lawful};

use frame::PathFrame;
use grade::{Cell, Class, Speed};
use job::Job;
use prepared::Prepared;
use runs::{Answer, Call};

pub(crate) trait JobFrame: Copy {
    ghost path: { Self → Path };

    // One call on the job under the frame's own limits.
    fn call(
        self,
        job: &mut Job,
        classes: &mut [Cell<Class>],
        speeds: &mut [Cell<Speed>],
        call: Call,
    ) -> Answer
        ensures does { Does (class_number (path self)) (speed_number (path self)) call (held job.old classes.old speeds.old) (held job.new classes.new speeds.new) result }
        ensures law { Lawful (class_number (path self)) (speed_number (path self)) (call ∷ []) (held job.old classes.old speeds.old) (held job.new classes.new speeds.new) };
}

impl<'a> JobFrame for PathFrame<'a> {
    ghost path = { λ s. path_of s.bytes.now };

    fn call(
        self,
        job: &mut Job,
        classes: &mut [Cell<Class>],
        speeds: &mut [Cell<Speed>],
        call: Call,
    ) -> Answer {
        planner::call(self, job, classes, speeds, call)
    }
}

impl<'a> JobFrame for Prepared<'a> {
    ghost path = { λ s. path_of s.frame.bytes.now };

    fn call(
        self,
        job: &mut Job,
        classes: &mut [Cell<Class>],
        speeds: &mut [Cell<Speed>],
        call: Call,
    ) -> Answer {
        planner::call_prepared(self, job, classes, speeds, call)
    }
}
