// The law of the job, for every setting and not only for the one that jobs of a frame have.
ghost use Rattle.runs.specs.Law.{RunsLawful};

// For every two lawful limits, every class table that never falls, every lawful start and every sequence of calls.
pub fn runs_are_lawful()
    ensures { RunsLawful }
{}
