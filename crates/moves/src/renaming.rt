// The free variables of a term given other numbers.
ghost use Rattle.std.specs.Prelude.{◌≡◌, ◌+◌, ◌^◌, ◌<◌, length};
ghost use Rattle.terms.specs.Cells.{renumber};
ghost use Rattle.terms.specs.Forest.{Are};
ghost use Rattle.terms.specs.Rows.{Row, rename};
ghost use Rattle.moves.specs.Moved.{Written};
ghost use Rattle.moves.specs.Renamings.{renamed, most, free, first_above};
ghost use Rattle.moves.specs.Scopes.{Fits};

use crate::scope::Scope;
use terms::cell::{VARIABLE, kind, payload};
use terms::forest::Trees;

// What becomes of a free number. (How far it goes up is bounded by a `requires` where that counts: an enum has no ghost field.)
#[derive(Clone, Copy, PartialEq, Eq, Debug)]
pub enum Renaming {
    // It goes up by so many,
    Raise(u64),
    // or down by one,
    Lower,
    // or 0 and 1 change places,
    Exchange,
    // or all but 0 go up by one.
    Beyond,
}

impl Renaming {
    // The number that a free number becomes.
    pub fn number(self, n: u64) -> u64
        requires { n + most self < 2 ^ 64 }
        ensures { result ≡ renamed self n }
    {
        match (self, n) {
            (Renaming::Raise(by), _) => n + by,
            (Renaming::Lower, _) => n.saturating_sub(1),
            (Renaming::Exchange, 0) => 1,
            (Renaming::Exchange, 1) => 0,
            (Renaming::Exchange, _) | (Renaming::Beyond, 0) => n,
            (Renaming::Beyond, _) => n + 1,
        }
    }
}

// The free number of a cell under so many binders, if it is a free variable.
pub fn free_number(c: u64, under: u64) -> Option<u64>
    ensures { result ≡ free under c }
{
    if kind(c) != VARIABLE {
        return None;
    }
    u64::from(payload(c)).checked_sub(under)
}

// A cell under so many binders, its free number, if it has one, renamed.
pub fn renumber(c: u64, how: Renaming, under: u64) -> u64
    requires { most how < 2 ^ 63 }
    ensures { result ≡ renumber (renamed how) under c }
{
    match free_number(c, under) {
        Some(n) => under + how.number(n),
        None => c,
    }
}

// How many binders lie above the first of n trees under d binders, the last one under b more.
pub fn binders_above(n: usize, d: u64, b: u64) -> u64
    requires { d + b < 2 ^ 64 }
    ensures { result ≡ first_above n d b }
{
    if n == 1 { d + b } else { d }
}

// Writes the trees at the front of `out`, their free variables renamed. Answers how many cells they are.
pub fn rename_scope(scope: Scope, how: Renaming, out: &mut [u64]) -> usize
    requires room { Fits scope.trees (length out.old) }
    requires mild { most how < 2 ^ 63 }
    ensures { (t : Row) → Are scope.entry.trees t → Written (rename (renamed how) scope.entry.d scope.entry.b t) out.old out.new result }
{
    let mut rest = scope;
    let mut count = 0;
    while let Some((c, inner)) = rest.first() {
        out[count] = renumber(c, how, inner.d);
        count += 1;
        if rest.trees.n == 1 {
            // Behind the children of the last tree nothing is left.
            rest = inner;
            continue;
        }
        if inner.trees.n > 0 {
            count += rename_scope(inner, how, &mut out[count..]);
        }
        rest = rest.others(scope.trees.at + count);
    }
    count
}

// The same of trees under no binder.
pub fn rename(trees: Trees, how: Renaming, out: &mut [u64]) -> usize
    requires room { Fits trees (length out.old) }
    requires mild { most how < 2 ^ 63 }
    ensures { (t : Row) → Are trees.entry t → Written (rename (renamed how) 0 0 t) out.old out.new result }
{
    rename_scope(Scope::outer(trees), how, out)
}
