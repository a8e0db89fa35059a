// The terms of the Verse calculus: which cells are one, and which places of it are sites.
#![tactic(auto)]

pub mod form;
pub mod free;
pub mod judge;
pub mod site;
pub mod sort;
