// What limits allow in small cases.
ghost use Rattle.worked.specs.LimitExamples.{LimitExamples};

pub fn limit_examples()
    ensures { LimitExamples }
{}
