// Tests of the parts of an equation.
ghost use Rattle.std.specs.Prelude.{◌≡◌, ℕ, Decides};
ghost use Rattle.terms.specs.Rows.{Row};
ghost use Rattle.terms.specs.Forest.{Are};
ghost use Rattle.pieces.specs.Parts.{OneTree};
ghost use Rattle.verse.specs.Syntax.Sort.{val, equ};
ghost use Rattle.verse.specs.Lines.{Deep, Holds};
ghost use Rattle.verse_rules.specs.Reads.{Reads};
ghost use Rattle.verse_rules.specs.Tests.{Apart, Early, Clear};

use crate::cells::{EQUATION, variable_cell};
use crate::forms::{value, variable};
use pieces::parts::{is, two};
use terms::cell::kind;
use terms::forest::Trees;
use verse::kind::Kind;

// Can two heads with these cells never be equal?
pub fn never_equal(c: u64, d: u64) -> bool
    ensures { Decides result (Apart c d) }
{
    kind(c) != Kind::Lambda as u8
        && kind(d) != Kind::Lambda as u8
        && (c != d || kind(c) == Kind::Operator as u8)
}

// Is the part y = v, v a value, with y up to x?
pub fn early(part: &[u64], x: u32) -> bool
    ensures { (q : Row) → Reads equ q part.now → Decides result (Early x q) }
{
    match two(part, EQUATION) {
        Some((a, b)) => matches!(variable(a), Ok(y) if y <= x) && value(b).is_ok(),
        None => false,
    }
}

// Where the trees end, if the variable x is none of them and lies in none under tuples and nothing else.
fn clear_of(trees: Trees, x: u32) -> Option<usize>
    ensures { (t : Row) → Are trees.entry t → Clear x t trees.entry.at result }
{
    let mut rest = trees;
    while let Some((c, below)) = rest.first() {
        if c == variable_cell(x) {
            return None;
        }
        let next = if kind(c) == Kind::Tuple as u8 {
            clear_of(below, x)?
        } else {
            below.end()
        };
        rest = rest.others(next);
    }
    Some(rest.at)
}

// Is the value x, or does x lie in it under tuples and nothing else?
pub fn lies_in(part: &[u64], x: u32) -> bool
    requires { ∥ OneTree part.now ∥₁ }
    ensures { (v : Row) → Reads val v part.now → Decides result (Holds x v) }
{
    let value = Trees {
        cells: part,
        at: 0,
        n: 1,
    };
    clear_of(value, x).is_none()
}

// Does x lie in the value under one or more tuples and nothing else?
pub fn lies_deep(part: &[u64], x: u32) -> bool
    requires { ∥ OneTree part.now ∥₁ }
    ensures { (v : Row) → Reads val v part.now → Decides result (Deep x v) }
{
    !is(part, variable_cell(x)) && lies_in(part, x)
}
