// The questions before a call: the first that is answered no is its fault.
ghost use Rattle.std.specs.Prelude.{◌≡◌, ◌<◌, ◌≤◌, OnOk, nat_lt};
ghost use Rattle.limit.specs.Numbers.{Number};
ghost use Rattle.runs.specs.Calls.{ask, granted, is_possible, questions, verdict};
ghost use Rattle.runs.specs.declared.call.Fault.TheVariants.{NoSample, JobImpossible};
ghost use Rattle.job.specs.Calling.{InRange};
ghost use Rattle.job.specs.Holding.{room_for};
ghost use Rattle.job.specs.Whole.{setting, top_of};

use super::job::Job;
use grade::{Class, Grade, Speed};
use runs::{Call, Fault, Make, Samples, Stage};

// The top of a make.
fn top_of(make: Make) -> u64
    ensures { result ≡ top_of make }
{
    match make {
        Make::Classes => u64::from(Class::highest()),
        Make::Speeds => u64::from(Speed::highest()),
    }
}

// Do memories of so many cells hold every sample?
pub(crate) fn ask_memory(samples: Samples, classes: usize, speeds: usize) -> Result<(), Fault>
    ensures is { result ≡ room_for samples.count classes speeds granted }
    ensures room { OnOk result ((samples.count ≤ classes) × (samples.count ≤ speeds)) }
{
    if classes < samples.count {
        return Err(Fault::NoClassMemory);
    }
    if speeds < samples.count {
        return Err(Fault::NoSpeedMemory);
    }
    Ok(())
}

impl Job {
    fn ask_possible(&self) -> Result<(), Fault>
        ensures { result ≡ ask (is_possible self.now.stage) JobImpossible granted }
    {
        match self.stage {
            Stage::Working(_) | Stage::Settled => Ok(()),
            Stage::Impossible(_) => Err(Fault::JobImpossible),
        }
    }

    fn ask_sample(&self, sample: u64) -> Result<(), Fault>
        ensures is { result ≡ ask (nat_lt sample self.now.samples.count) NoSample granted }
        ensures below { OnOk result (sample < self.now.samples.count) }
    {
        if sample < self.samples.count as u64 {
            Ok(())
        } else {
            Err(Fault::NoSample)
        }
    }

    // The questions of a cut or a lift.
    fn ask_change(&self, make: Make, sample: u64, value: u64) -> Result<(), Fault>
        ensures is { (a b : Number) → result ≡ questions (setting self.now.samples.count a b) make sample value self.now.stage }
        ensures within { OnOk result ((sample < self.now.samples.count) × (value ≤ top_of make)) }
    {
        self.ask_sample(sample)?;
        if value > top_of(make) {
            return Err(Fault::AboveTop);
        }
        self.ask_possible()
    }

    // A call's own questions.
    fn ask_call(&self, call: Call) -> Result<(), Fault>
        ensures is { (a b : Number) → result ≡ verdict (setting self.now.samples.count a b) call self.now.stage }
        ensures range { OnOk result (InRange self.now.samples.count call) }
    {
        match call {
            Call::Advance(_) => self.ask_possible(),
            Call::Cut(make, sample, value) | Call::Lift(make, sample, value) => {
                self.ask_change(make, sample, value)
            }
            Call::Look(sample) => self.ask_sample(sample),
        }
    }

    // Do memories of so many cells hold every sample?
    pub fn ask_room(&self, classes: usize, speeds: usize) -> Result<(), Fault>
        ensures is { result ≡ room_for self.now.samples.count classes speeds granted }
        ensures room { OnOk result ((self.now.samples.count ≤ classes) × (self.now.samples.count ≤ speeds)) }
    {
        ask_memory(self.samples, classes, speeds)
    }

    // Every question before a call, beside memories of so many cells.
    pub(crate) fn ask(&self, classes: usize, speeds: usize, call: Call) -> Result<(), Fault>
        ensures is { (a b : Number) → result ≡ room_for self.now.samples.count classes speeds (verdict (setting self.now.samples.count a b) call self.now.stage) }
        ensures room { OnOk result ((self.now.samples.count ≤ classes) × (self.now.samples.count ≤ speeds)) }
        ensures range { OnOk result (InRange self.now.samples.count call) }
    {
        self.ask_room(classes, speeds)?;
        self.ask_call(call)
    }
}
