// Rows that bound how fast the rise of a profile may grow are no limit, so there is none for them here.
ghost use Rattle.motion.specs.Rates.{RateFalls, RateBreaksRule, RateIsNoLimit};

pub fn rate_is_no_limit()
    ensures falls { RateFalls }
    ensures breaks { RateBreaksRule }
    ensures apart { RateIsNoLimit }
{}
