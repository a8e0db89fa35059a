// Terms in a table: cells of 64 bits, the trees that they mean, where a subterm ends and what lies at a place.
#![tactic(auto)]

ghost use Rattle.terms.specs.Facts.{TermFacts};

pub mod cell;
pub mod extent;
pub mod forest;
pub mod place;
pub mod small;

// Cells determine their tree, a place its part, and a term put there the new whole; the layout judge has one answer.
pub fn terms_stand() -> bool
    ensures { TermFacts }
{
    true
}
