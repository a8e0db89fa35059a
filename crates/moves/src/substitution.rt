// Trees put for the free variables of a term.
ghost use Rattle.std.specs.Prelude.{◌≡◌, ℕ, ◌+◌, length};
ghost use Rattle.terms.specs.Cells.{binder};
ghost use Rattle.terms.specs.Forest.{Are};
ghost use Rattle.terms.specs.Rows.{Row, size, substitute};
ghost use Rattle.terms.specs.Rows.Row.{none, node};
ghost use Rattle.moves.specs.Images.{Shows, Sizes};
ghost use Rattle.moves.specs.Substitutions.{Spent, Putting, PuttingFirst, Put, Substituted};

use crate::images::Substitution;
use crate::renaming::free_number;
use crate::scope::Scope;
use terms::forest::Trees;

// Whether the trees fit the room with trees put for their free variables: where they end, and the room that is left.
#[cycle(counting)]
pub fn count_scope(scope: Scope, how: Substitution, room: usize) -> Option<(usize, usize)>
    ensures { (t : Row) (s : ℕ → Row) → Are scope.entry.trees t → Sizes how.entry s → Spent (scope.entry.trees.at + size t) (size (substitute s scope.entry.d scope.entry.b t)) room result }
{
    let mut rest = scope;
    let mut left = room;
    while let Some((c, inner)) = rest.first() {
        let (next, more) = count_first(c, inner, how, left)?;
        left = more;
        rest = rest.others(next);
    }
    Some((rest.trees.at, left))
}

// The same of one tree, by its cell and its children.
#[cycle(counting)]
fn count_first(c: u64, inner: Scope, how: Substitution, room: usize) -> Option<(usize, usize)>
    requires { inner.b ≡ binder c }
    ensures { (ks : Row) (s : ℕ → Row) → Are inner.entry.trees ks → Sizes how.entry s → Spent (inner.entry.trees.at + size ks) (size (substitute s inner.entry.d 0 (node c ks none))) room result }
{
    match free_number(c, inner.d) {
        Some(x) => {
            let left = room.checked_sub(how.image(x).size())?;
            Some((inner.trees.end(), left))
        }
        None => {
            let left = room.checked_sub(1)?;
            count_scope(inner, how, left)
        }
    }
}

// Writes the trees at the front of `out`, with trees put for their free variables. Answers where they end, and how
// many cells are written.
#[cycle(substituting)]
pub fn substitute_scope(scope: Scope, how: Substitution, out: &mut [u64]) -> (usize, usize)
    requires { Putting scope how (length out.old) }
    ensures { (t : Row) (s : ℕ → Row) → Are scope.entry.trees t → Shows how.entry s → Substituted (scope.entry.trees.at + size t) (substitute s scope.entry.d scope.entry.b t) out.old out.new result }
{
    let mut rest = scope;
    let mut count = 0;
    while let Some((c, inner)) = rest.first() {
        let (next, more) = substitute_first(c, inner, how, &mut out[count..]);
        count += more;
        rest = rest.others(next);
    }
    (rest.trees.at, count)
}

// The same of one tree, by its cell and its children.
#[cycle(substituting)]
fn substitute_first(c: u64, inner: Scope, how: Substitution, out: &mut [u64]) -> (usize, usize)
    requires bound { inner.b ≡ binder c }
    requires tree { PuttingFirst c inner how (length out.old) }
    ensures { (ks : Row) (s : ℕ → Row) → Are inner.entry.trees ks → Shows how.entry s → Substituted (inner.entry.trees.at + size ks) (substitute s inner.entry.d 0 (node c ks none)) out.old out.new result }
{
    match free_number(c, inner.d) {
        Some(x) => (inner.trees.end(), how.image(x).write(out, inner.d)),
        None => {
            out[0] = c;
            let (end, count) = substitute_scope(inner, how, &mut out[1..]);
            (end, 1 + count)
        }
    }
}

// Writes trees under no binder at the front of `out`, with trees put for their free variables. Answers how many cells
// these are; none, and nothing written, where `out` has not so many.
pub fn substitute(trees: Trees, how: Substitution, out: &mut [u64]) -> Option<usize>
    requires { (s : ℕ → Row) × Shows how s }
    ensures { (t : Row) (s : ℕ → Row) → Are trees.entry t → Shows how.entry s → Put (substitute s 0 0 t) out.old out.new result }
{
    let scope = Scope::outer(trees);
    let _left = count_scope(scope, how, out.len())?;
    let (_end, count) = substitute_scope(scope, how, out);
    Some(count)
}
