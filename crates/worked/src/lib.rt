// The worked examples, each shown from the definitions.
#![tactic(auto)]

ghost use Rattle.worked.specs.Examples.{Examples};

mod limits;

pub use limits::limit_examples;

// What clauses cap and limits allow in small cases, and a path of three samples from its frame to its settled job.
pub fn examples()
    ensures { Examples }
{}
