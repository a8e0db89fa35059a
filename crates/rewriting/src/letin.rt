// The rule LetIn.
ghost use Rattle.std.specs.Prelude.{◌≡◌, ◌⊎◌, Decides};
ghost use Rattle.terms.specs.Cells.{kind};
ghost use Rattle.terms.specs.Rows.Row.{none};
ghost use Rattle.lets.specs.Figure.{letin as letin_line};
ghost use Rattle.rewriting.specs.Steps.{Steps};

use crate::redex::{LET_CELL, NEAREST, Redex};
use crate::writing::{put, put_renamed};
use calculus::no::No;
use lets::kind::Kind;
use moves::renaming::Renaming;
use terms::cell::kind;

// Is the cell an unmarked function or a let?
fn is_moved(c: u64) -> bool
    ensures { Decides result ((kind c ≡ 33) ⊎ (kind c ≡ 35)) }
{
    kind(c) == Kind::Function as u8 || kind(c) == Kind::Let as u8
}

// h(.., e, ..) → let X = e in h(.., X, ..), if e, the child that the argument numbers, is an unmarked function or a
// let.
pub fn let_in(argument: u8, redex: Redex, space: &mut [u64]) -> Result<usize, No>
    ensures { Steps (letin_line none argument) redex.entry.cells.now space.old space.new result }
{
    let parts = redex.with_child(argument as usize)?;
    if !is_moved(parts.child.head()) {
        return Err(No::Barred);
    }
    if redex.cells.len() + 2 > space.len() {
        return Err(No::Overlong);
    }
    let e = put(&[LET_CELL], space, 0);
    let head = put(parts.child.cells, space, e);
    let before = put(&[parts.head], space, head);
    let x = put_renamed(parts.before, Renaming::Raise(1), space, before);
    let after = put(&[NEAREST], space, x);
    Ok(put_renamed(parts.after, Renaming::Raise(1), space, after))
}
