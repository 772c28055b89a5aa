// The library as C calls it: each function is a call of the library's, over memory that C lends, and states its clauses again.
#![tactic(auto)]

mod advancing;
mod advancing_prepared;
mod allowing;
mod answer_words;
mod call_words;
mod capping;
mod cells;
mod checking;
mod clashing;
mod job_frame;
mod job_words;
mod lending;
mod limits;
mod making;
mod naming;
mod preparing;
mod refusal_words;
mod rewriting;
mod running;
mod sending;
