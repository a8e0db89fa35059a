// Runs over any calculus.
#![tactic(auto)]

pub mod asking;
pub mod call;
pub mod calls;
pub mod clean;
pub mod refusal;
pub mod replay;
pub mod rewriting;
pub mod run;
pub mod step;
pub mod table;
pub mod ticket;
pub mod turning;
