// The rules of the Verse calculus that have no inner place. (A rule is a function of its own, to be laid beside its line in the figure, though two may have one
// shape.)
#![tactic(auto)]

pub mod application;
pub mod cells;
pub mod choice;
pub mod elimination;
pub mod forms;
pub mod give;
pub mod lying;
pub mod normalization;
pub mod redex;
pub mod signed;
pub mod unification;
