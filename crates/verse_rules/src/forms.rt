// The forms of a redex and its parts: a reader for each, which answers the parts. (Those over one part and over two are `only`
// and `two` at the cell of the form. They stay apart: each promises the sorts of its own parts, and its name reads plainer.)
ghost use Rattle.std.specs.Prelude.{◌≡◌};
ghost use Rattle.terms.specs.Rows.{Row, flat, var};
ghost use Rattle.verse.specs.Syntax.{Sort, Term, seq, app, lambda, choice, exists, one, all, int};
ghost use Rattle.verse.specs.Syntax.Sort.{val, exp, equ};
ghost use Rattle.verse.specs.Kind.{number_of};
ghost use Rattle.verse_rules.specs.Reads.{Reads, Two, Sole, Three, Leaf, LeafOf, Valued, Headed, Exactly, Operands, Bound, both};

use crate::cells::{ALL, APPLICATION, CHOICE, EQUATION, EXISTS, LAMBDA, ONE, PAIR, SEQUENCE};
use calculus::no::No;
use pieces::parts::{is, only, top, two};
use terms::cell::{kind, payload};
use verse::kind::Kind;

// v1 v2
pub fn application(part: &[u64]) -> Result<(&[u64], &[u64]), No>
    ensures { (s : Sort) (t : Row) → Reads s t part.now → Two app val val t result }
{
    two(part, APPLICATION).ok_or(No::Formless)
}

// λx. e
pub fn abstraction(part: &[u64]) -> Result<&[u64], No>
    ensures { (s : Sort) (t : Row) → Reads s t part.now → Sole lambda exp t result }
{
    only(part, LAMBDA).ok_or(No::Formless)
}

// q; e
pub fn sequence(part: &[u64]) -> Result<(&[u64], &[u64]), No>
    ensures { (s : Sort) (t : Row) → Reads s t part.now → Two seq equ exp t result }
{
    two(part, SEQUENCE).ok_or(No::Formless)
}

// v = b; e
pub fn equation(part: &[u64]) -> Result<(&[u64], &[u64], &[u64]), No>
    ensures { (s : Sort) (t : Row) → Reads s t part.now → Three t result }
{
    let (q, e) = sequence(part)?;
    let (a, b) = two(q, EQUATION).ok_or(No::Formless)?;
    Ok((a, b, e))
}

// ∃x. e
pub fn existential(part: &[u64]) -> Result<&[u64], No>
    ensures { (s : Sort) (t : Row) → Reads s t part.now → Sole exists exp t result }
{
    only(part, EXISTS).ok_or(No::Formless)
}

// e1 | e2
pub fn alternatives(part: &[u64]) -> Result<(&[u64], &[u64]), No>
    ensures { (s : Sort) (t : Row) → Reads s t part.now → Two choice exp exp t result }
{
    two(part, CHOICE).ok_or(No::Formless)
}

// one{e}
pub fn one_of(part: &[u64]) -> Result<&[u64], No>
    ensures { (s : Sort) (t : Row) → Reads s t part.now → Sole one exp t result }
{
    only(part, ONE).ok_or(No::Formless)
}

// all{e}
pub fn all_of(part: &[u64]) -> Result<&[u64], No>
    ensures { (s : Sort) (t : Row) → Reads s t part.now → Sole all exp t result }
{
    only(part, ALL).ok_or(No::Formless)
}

// The part is a value.
pub fn value(part: &[u64]) -> Result<(), No>
    ensures { (s : Sort) (t : Row) → Reads s t part.now → Valued part.now t result }
{
    match top(part) {
        Some(c) if kind(c) <= Kind::Lambda as u8 => Ok(()),
        _ => Err(No::Formless),
    }
}

// The cell of a value that is no variable.
pub fn head(part: &[u64]) -> Result<u64, No>
    ensures { (s : Sort) (t : Row) → Reads s t part.now → Headed part.now t result }
{
    value(part)?;
    match top(part) {
        Some(c) if kind(c) != Kind::Variable as u8 => Ok(c),
        _ => Err(No::Formless),
    }
}

// The payload of the part's cell, if that has the kind.
fn leaf(part: &[u64], of: Kind) -> Result<u32, No>
    ensures { (s : Sort) (t : Row) → Reads s t part.now → LeafOf (number_of of) t result }
{
    match top(part) {
        Some(c) if kind(c) == of as u8 => Ok(payload(c)),
        _ => Err(No::Formless),
    }
}

// The payload of a variable.
pub fn variable(part: &[u64]) -> Result<u32, No>
    ensures { (s : Sort) (t : Row) → Reads s t part.now → Leaf var t result }
{
    leaf(part, Kind::Variable)
}

// The payload of an integer.
pub fn integer(part: &[u64]) -> Result<u32, No>
    ensures { (s : Sort) (t : Row) → Reads s t part.now → Leaf int t result }
{
    leaf(part, Kind::Integer)
}

// ⟨v1, v2⟩
pub fn pair(part: &[u64]) -> Result<(&[u64], &[u64]), No>
    ensures { (s : Sort) (t : Row) → Reads s t part.now → Two both val val t result }
{
    two(part, PAIR).ok_or(No::Formless)
}

// op⟨k1, k2⟩: the payloads of the integers, by the cell of the operator.
pub fn operands(cells: &[u64], operator: u64) -> Result<(u32, u32), No>
    ensures { (t : Row) → Term t → flat t ≡ cells.now → Operands operator t result }
{
    let (f, v) = application(cells)?;
    exactly(f, operator)?;
    let (a, b) = pair(v)?;
    let m = integer(a)?;
    let n = integer(b)?;
    Ok((m, n))
}

// x = v; e: the payload of x, and v and e.
pub fn binding(part: &[u64]) -> Result<(u32, &[u64], &[u64]), No>
    ensures { (s : Sort) (t : Row) → Reads s t part.now → Bound t result }
{
    let (a, v, e) = equation(part)?;
    let x = variable(a)?;
    value(v)?;
    Ok((x, v, e))
}

// The part is that cell alone.
pub fn exactly(part: &[u64], cell: u64) -> Result<(), No>
    ensures { (s : Sort) (t : Row) → Reads s t part.now → Exactly cell t result }
{
    if is(part, cell) {
        Ok(())
    } else {
        Err(No::Formless)
    }
}
