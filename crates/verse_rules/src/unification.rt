// Unification.
ghost use Rattle.verse.specs.Lines.{u_lit, u_fail, u_occurs, hnf_swap, var_swap, seq_swap};
ghost use Rattle.verse_rules.specs.Rewrites.{Rewrites};

use crate::cells::{EQUATION, FAIL, SEQUENCE, variable_cell};
use crate::forms::{binding, equation, head, integer, sequence, value, variable};
use crate::give::give;
use crate::lying::{early, lies_deep, never_equal};
use crate::redex::Redex;
use calculus::no::No;
use pieces::piece::Piece;

// U-LIT: k1 = k2; e gives e, if k1 = k2.
pub fn u_lit(redex: Redex, space: &mut [u64]) -> Result<usize, No>
    ensures { Rewrites u_lit redex.entry space.old space.new result }
{
    let (a, b, e) = equation(redex.cells)?;
    let m = integer(a)?;
    let n = integer(b)?;
    if m != n {
        return Err(No::Barred);
    }
    give(&[Piece::Copy(e)], space)
}

// U-FAIL: h1 = h2; e gives fail, if U-LIT and U-TUP do not match and neither h1 nor h2 is a lambda.
pub fn u_fail(redex: Redex, space: &mut [u64]) -> Result<usize, No>
    ensures { Rewrites u_fail redex.entry space.old space.new result }
{
    let (a, b, _) = equation(redex.cells)?;
    let c = head(a)?;
    let d = head(b)?;
    if !never_equal(c, d) {
        return Err(No::Barred);
    }
    give(&[Piece::Cell(FAIL)], space)
}

// U-OCCURS: x = V[x]; e gives fail, if V ≠ □.
pub fn u_occurs(redex: Redex, space: &mut [u64]) -> Result<usize, No>
    ensures { Rewrites u_occurs redex.entry space.old space.new result }
{
    let (x, v, _) = binding(redex.cells)?;
    if !lies_deep(v, x) {
        return Err(No::Barred);
    }
    give(&[Piece::Cell(FAIL)], space)
}

// HNF-SWAP: h = v; e gives v = h; e.
pub fn hnf_swap(redex: Redex, space: &mut [u64]) -> Result<usize, No>
    ensures { Rewrites hnf_swap redex.entry space.old space.new result }
{
    let (h, v, e) = equation(redex.cells)?;
    head(h)?;
    value(v)?;
    let parts = [
        Piece::Cell(SEQUENCE),
        Piece::Cell(EQUATION),
        Piece::Copy(v),
        Piece::Copy(h),
        Piece::Copy(e),
    ];
    give(&parts, space)
}

// VAR-SWAP: y = x; e gives x = y; e, if x < y.
pub fn var_swap(redex: Redex, space: &mut [u64]) -> Result<usize, No>
    ensures { Rewrites var_swap redex.entry space.old space.new result }
{
    let (a, b, e) = equation(redex.cells)?;
    let y = variable(a)?;
    let x = variable(b)?;
    if x >= y {
        return Err(No::Barred);
    }
    let parts = [
        Piece::Cell(SEQUENCE),
        Piece::Cell(EQUATION),
        Piece::Copy(b),
        Piece::Copy(a),
        Piece::Copy(e),
    ];
    give(&parts, space)
}

// SEQ-SWAP: q; (x = v; e) gives x = v; (q; e), unless q is y = w with a value w and y ≤ x.
pub fn seq_swap(redex: Redex, space: &mut [u64]) -> Result<usize, No>
    ensures { Rewrites seq_swap redex.entry space.old space.new result }
{
    let (q, rest) = sequence(redex.cells)?;
    let (x, v, e) = binding(rest)?;
    if early(q, x) {
        return Err(No::Barred);
    }
    let parts = [
        Piece::Cell(SEQUENCE),
        Piece::Cell(EQUATION),
        Piece::Cell(variable_cell(x)),
        Piece::Copy(v),
        Piece::Cell(SEQUENCE),
        Piece::Copy(q),
        Piece::Copy(e),
    ];
    give(&parts, space)
}
