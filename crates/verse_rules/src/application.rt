// Application.
ghost use Rattle.verse.specs.Lines.{app_add, app_gt, app_gt_fail, app_beta, app_tup_0};
ghost use Rattle.verse_rules.specs.Rewrites.{Rewrites};

use crate::cells::{ADD, EQUATION, EXISTS, FAIL, GT, SEQUENCE, TUPLE, integer_cell, variable_cell};
use crate::forms::{abstraction, application, exactly, operands};
use crate::give::give;
use crate::redex::Redex;
use crate::signed::{exceeds, sum};
use calculus::no::No;
use moves::renaming::Renaming;
use pieces::piece::{Moved, Piece};

// APP-ADD: add⟨k1, k2⟩ gives k1 + k2.
pub fn app_add(redex: Redex, space: &mut [u64]) -> Result<usize, No>
    ensures { Rewrites app_add redex.entry space.old space.new result }
{
    let (m, n) = operands(redex.cells, ADD)?;
    let k = sum(m, n).ok_or(No::Oversum)?;
    give(&[Piece::Cell(integer_cell(k))], space)
}

// APP-GT: gt⟨k1, k2⟩ gives k1, if k1 > k2.
pub fn app_gt(redex: Redex, space: &mut [u64]) -> Result<usize, No>
    ensures { Rewrites app_gt redex.entry space.old space.new result }
{
    let (m, n) = operands(redex.cells, GT)?;
    if !exceeds(m, n) {
        return Err(No::Barred);
    }
    give(&[Piece::Cell(integer_cell(m))], space)
}

// APP-GT-FAIL: gt⟨k1, k2⟩ gives fail, if k1 ≤ k2.
pub fn app_gt_fail(redex: Redex, space: &mut [u64]) -> Result<usize, No>
    ensures { Rewrites app_gt_fail redex.entry space.old space.new result }
{
    let (m, n) = operands(redex.cells, GT)?;
    if exceeds(m, n) {
        return Err(No::Barred);
    }
    give(&[Piece::Cell(FAIL)], space)
}

// APP-BETA: (λx. e)(v) gives ∃x. x = v; e.
pub fn app_beta(redex: Redex, space: &mut [u64]) -> Result<usize, No>
    ensures { Rewrites app_beta redex.entry space.old space.new result }
{
    let (f, v) = application(redex.cells)?;
    let e = abstraction(f)?;
    let parts = [
        Piece::Cell(EXISTS),
        Piece::Cell(SEQUENCE),
        Piece::Cell(EQUATION),
        Piece::Cell(variable_cell(0)),
        Piece::Moved(Moved {
            cells: v,
            how: Renaming::Raise(1),
        }),
        Piece::Copy(e),
    ];
    give(&parts, space)
}

// APP-TUP-0: ⟨⟩(v) gives fail.
pub fn app_tup_0(redex: Redex, space: &mut [u64]) -> Result<usize, No>
    ensures { Rewrites app_tup_0 redex.entry space.old space.new result }
{
    let (f, _) = application(redex.cells)?;
    exactly(f, TUPLE)?;
    give(&[Piece::Cell(FAIL)], space)
}
