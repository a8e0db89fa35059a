// The contexts of the Verse calculus: down an inner place to the hole of a context.
#![tactic(auto)]

pub mod down;
mod part;
pub mod scope;
