// Choice.
ghost use Rattle.verse.specs.Lines.{one_fail, one_value, one_choice, all_fail, all_value, choose_r, choose_l, choose_assoc};
ghost use Rattle.verse_rules.specs.Rewrites.{Rewrites};

use crate::cells::{CHOICE, FAIL, SINGLE, TUPLE};
use crate::forms::{all_of, alternatives, exactly, one_of, value};
use crate::give::give;
use crate::redex::Redex;
use calculus::no::No;
use pieces::piece::Piece;

// ONE-FAIL: one{fail} gives fail.
pub fn one_fail(redex: Redex, space: &mut [u64]) -> Result<usize, No>
    ensures { Rewrites one_fail redex.entry space.old space.new result }
{
    let e = one_of(redex.cells)?;
    exactly(e, FAIL)?;
    give(&[Piece::Cell(FAIL)], space)
}

// ONE-VALUE: one{v} gives v.
pub fn one_value(redex: Redex, space: &mut [u64]) -> Result<usize, No>
    ensures { Rewrites one_value redex.entry space.old space.new result }
{
    let v = one_of(redex.cells)?;
    value(v)?;
    give(&[Piece::Copy(v)], space)
}

// ONE-CHOICE: one{v | e} gives v.
pub fn one_choice(redex: Redex, space: &mut [u64]) -> Result<usize, No>
    ensures { Rewrites one_choice redex.entry space.old space.new result }
{
    let either = one_of(redex.cells)?;
    let (v, _) = alternatives(either)?;
    value(v)?;
    give(&[Piece::Copy(v)], space)
}

// ALL-FAIL: all{fail} gives ⟨⟩.
pub fn all_fail(redex: Redex, space: &mut [u64]) -> Result<usize, No>
    ensures { Rewrites all_fail redex.entry space.old space.new result }
{
    let e = all_of(redex.cells)?;
    exactly(e, FAIL)?;
    give(&[Piece::Cell(TUPLE)], space)
}

// ALL-VALUE: all{v} gives ⟨v⟩.
pub fn all_value(redex: Redex, space: &mut [u64]) -> Result<usize, No>
    ensures { Rewrites all_value redex.entry space.old space.new result }
{
    let v = all_of(redex.cells)?;
    value(v)?;
    give(&[Piece::Cell(SINGLE), Piece::Copy(v)], space)
}

// CHOOSE-R: fail | e gives e.
pub fn choose_r(redex: Redex, space: &mut [u64]) -> Result<usize, No>
    ensures { Rewrites choose_r redex.entry space.old space.new result }
{
    let (f, e) = alternatives(redex.cells)?;
    exactly(f, FAIL)?;
    give(&[Piece::Copy(e)], space)
}

// CHOOSE-L: e | fail gives e.
pub fn choose_l(redex: Redex, space: &mut [u64]) -> Result<usize, No>
    ensures { Rewrites choose_l redex.entry space.old space.new result }
{
    let (e, f) = alternatives(redex.cells)?;
    exactly(f, FAIL)?;
    give(&[Piece::Copy(e)], space)
}

// CHOOSE-ASSOC: (e1 | e2) | e3 gives e1 | (e2 | e3).
pub fn choose_assoc(redex: Redex, space: &mut [u64]) -> Result<usize, No>
    ensures { Rewrites choose_assoc redex.entry space.old space.new result }
{
    let (left, e3) = alternatives(redex.cells)?;
    let (e1, e2) = alternatives(left)?;
    let parts = [
        Piece::Cell(CHOICE),
        Piece::Copy(e1),
        Piece::Cell(CHOICE),
        Piece::Copy(e2),
        Piece::Copy(e3),
    ];
    give(&parts, space)
}
