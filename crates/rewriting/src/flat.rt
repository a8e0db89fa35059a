// The rule Flat.
ghost use Rattle.terms.specs.Rows.Row.{none};
ghost use Rattle.lets.specs.Figure.{flatten};
ghost use Rattle.rewriting.specs.Steps.{Steps};

use crate::redex::{LET_CELL, Redex};
use crate::writing::{put, put_renamed};
use calculus::no::No;
use moves::renaming::Renaming;

// let X = (let Y = a in b) in e → let Y = a in let X = b in e.
pub fn flatten_lets(redex: Redex, space: &mut [u64]) -> Result<usize, No>
    ensures { Steps (flatten none 0) redex.entry.cells.now space.old space.new result }
{
    let outer = redex.as_let()?;
    let inner = outer.bound.as_let()?;
    if redex.cells.len() > space.len() {
        return Err(No::Overlong);
    }
    let a = put(&[LET_CELL], space, 0);
    let second = put(inner.bound.cells, space, a);
    let b = put(&[LET_CELL], space, second);
    let e = put(inner.body.cells, space, b);
    Ok(put_renamed(outer.body.trees(), Renaming::Beyond, space, e))
}
