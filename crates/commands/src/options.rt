// What `furqyzet plan` is asked for.
use super::script::number;
use thiserror::Error;

#[derive(Clone, Copy, Debug, PartialEq, Eq)]
pub struct PlanOptions<'a> {
    pub frame: &'a str,
    // The evaluations of a cycle, at least 1; where none are given, as many as the job can need.
    pub allowance: Option<u64>,
    // The file for the setpoint frame.
    pub setpoints: Option<&'a str>,
    pub quiet: bool,
}

// What is wrong with the words behind the verb.
#[derive(Clone, Copy, Debug, PartialEq, Eq, Error)]
pub enum OptionFault {
    #[error("takes a frame, as in furqyzet plan FRAME")]
    NoFrame,
    #[error("takes one frame")]
    TwoFrames,
    #[error("takes a number of evaluations, at least 1, behind --allowance")]
    NoAllowance,
    #[error("takes a file to write behind --setpoints")]
    NoSetpoints,
    #[error("has the options --allowance, --setpoints and --quiet alone")]
    Unknown,
}

// The options that the words behind the verb give, or the first thing that is wrong with them.
pub fn plan_options<'a>(words: &[&'a str]) -> Result<PlanOptions<'a>, OptionFault> {
    let mut frame = None;
    let mut allowance = None;
    let mut setpoints = None;
    let mut quiet = false;
    let mut words = words.iter();
    while let Some(&word) = words.next() {
        match word {
            "--allowance" => {
                let evaluations = words.next().and_then(|word| number(word));
                allowance = Some(
                    evaluations
                        .filter(|evaluations| *evaluations > 0)
                        .ok_or(OptionFault::NoAllowance)?,
                );
            }
            "--setpoints" => setpoints = Some(*words.next().ok_or(OptionFault::NoSetpoints)?),
            "--quiet" => quiet = true,
            _ if word.starts_with("--") => return Err(OptionFault::Unknown),
            _ if frame.is_some() => return Err(OptionFault::TwoFrames),
            // An empty word names no frame.
            _ => frame = Some(word).filter(|word| *word != ""),
        }
    }
    Ok(PlanOptions {
        frame: frame.ok_or(OptionFault::NoFrame)?,
        allowance,
        setpoints,
        quiet,
    })
}
