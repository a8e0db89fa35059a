// The rule Elim.
ghost use Rattle.terms.specs.Rows.Row.{none};
ghost use Rattle.lets.specs.Figure.{elim_let};
ghost use Rattle.rewriting.specs.Steps.{Steps};

use crate::redex::{NEAREST, Redex};
use calculus::no::No;
use moves::occurs::occurs;
use moves::renaming::{Renaming, rename};

// let X = a in e → e, if X is not free in e.
pub fn eliminate(redex: Redex, space: &mut [u64]) -> Result<usize, No>
    ensures { Steps (elim_let none 0) redex.entry.cells.now space.old space.new result }
{
    let body = redex.as_let()?.body;
    if occurs(body.trees(), NEAREST).is_some() {
        return Err(No::Barred);
    }
    if body.cells.len() > space.len() {
        return Err(No::Overlong);
    }
    Ok(rename(body.trees(), Renaming::Lower, space))
}
