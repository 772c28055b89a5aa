// The calls on a job, with its sheets beside it.
//
// Each call asks its questions first, the memory's before its own; refused, it leaves the very job and the very cells.
// A cut and a lift each stand here twice, once for each make: one method over both would borrow both sheets mutably, and so
// ask more of who calls it. What the two share stands once, in `ask`, `cut` and `lift`. For the same reason the two sheets
// are no struct of both.
ghost use Rattle.runs.specs.declared.stage.Make.TheVariants.{Classes, Speeds};
ghost use Rattle.runs.specs.declared.call.Call.TheVariants.{Cut, Lift, Look};
ghost use Rattle.job.specs.Holding.{held};
ghost use Rattle.job.specs.Calling.{Promises, done, seen};

use super::job::Job;
use grade::{Cell, Class, Grade, Speed};
use runs::{Call, Fault, Make, Sight};

impl Job {
    // The class cap of a sample falls to a value, unless it is lower already.
    pub fn class_cut(
        &mut self,
        classes: &mut [Cell<Class>],
        speeds: &[Cell<Speed>],
        sample: u64,
        value: u64,
    ) -> Result<(), Fault>
        ensures { Promises (Cut Classes sample value) (held self.old classes.old speeds.now) (held self.new classes.new speeds.now) (done result) }
    {
        let call = Call::Cut(Make::Classes, sample, value);
        self.ask(classes.len(), speeds.len(), call)?;
        let n = self.samples.count;
        let to = Class::of_rank(value as u32);
        self.cut(Make::Classes, &mut classes[..n], sample as usize, to);
        Ok(())
    }

    // The speed cap of a sample falls to a value, unless it is lower already.
    pub fn speed_cut(
        &mut self,
        classes: &[Cell<Class>],
        speeds: &mut [Cell<Speed>],
        sample: u64,
        value: u64,
    ) -> Result<(), Fault>
        ensures { Promises (Cut Speeds sample value) (held self.old classes.now speeds.old) (held self.new classes.now speeds.new) (done result) }
    {
        let call = Call::Cut(Make::Speeds, sample, value);
        self.ask(classes.len(), speeds.len(), call)?;
        let n = self.samples.count;
        let to = Speed::of_rank(value as u32);
        self.cut(Make::Speeds, &mut speeds[..n], sample as usize, to);
        Ok(())
    }

    // The class floor of a sample rises to a value, unless it is higher already.
    pub fn class_lift(
        &mut self,
        classes: &mut [Cell<Class>],
        speeds: &[Cell<Speed>],
        sample: u64,
        value: u64,
    ) -> Result<(), Fault>
        ensures { Promises (Lift Classes sample value) (held self.old classes.old speeds.now) (held self.new classes.new speeds.now) (done result) }
    {
        let call = Call::Lift(Make::Classes, sample, value);
        self.ask(classes.len(), speeds.len(), call)?;
        let n = self.samples.count;
        let to = Class::of_rank(value as u32);
        self.lift(&mut classes[..n], sample as usize, to);
        Ok(())
    }

    // The speed floor of a sample rises to a value, unless it is higher already.
    pub fn speed_lift(
        &mut self,
        classes: &[Cell<Class>],
        speeds: &mut [Cell<Speed>],
        sample: u64,
        value: u64,
    ) -> Result<(), Fault>
        ensures { Promises (Lift Speeds sample value) (held self.old classes.now speeds.old) (held self.new classes.now speeds.new) (done result) }
    {
        let call = Call::Lift(Make::Speeds, sample, value);
        self.ask(classes.len(), speeds.len(), call)?;
        let n = self.samples.count;
        let to = Speed::of_rank(value as u32);
        self.lift(&mut speeds[..n], sample as usize, to);
        Ok(())
    }

    // Where the job stands, and a sample's class and squared speed.
    pub fn look(
        &self,
        classes: &[Cell<Class>],
        speeds: &[Cell<Speed>],
        sample: u64,
    ) -> Result<Sight, Fault>
        ensures { Promises (Look sample) (held self.now classes.now speeds.now) (held self.now classes.now speeds.now) (seen result) }
    {
        self.ask(classes.len(), speeds.len(), Call::Look(sample))?;
        Ok(Sight {
            stage: self.stage,
            class: classes[sample as usize].value.rank(),
            speed: speeds[sample as usize].value.rank(),
        })
    }
}
