// Where a free variable occurs in a term.
ghost use Rattle.terms.specs.Forest.{Are};
ghost use Rattle.terms.specs.Rows.{Row};
ghost use Rattle.moves.specs.Occurrences.{Searched, FirstFree};

use crate::renaming::free_number;
use crate::scope::Scope;
use terms::forest::Trees;

// Where the trees end, if the free variable x is not in them; otherwise the first cell at which it occurs.
pub fn search(scope: Scope, x: u64) -> Result<usize, usize>
    ensures { (t : Row) → Are scope.entry.trees t → Searched x scope.entry.d scope.entry.b t scope.entry.trees.at result }
{
    let mut rest = scope;
    while let Some((c, inner)) = rest.first() {
        if free_number(c, inner.d) == Some(x) {
            return Err(rest.trees.at);
        }
        let next = search(inner, x)?;
        rest = rest.others(next);
    }
    Ok(rest.trees.at)
}

// The first cell at which the free variable x occurs among trees.
pub fn occurs(trees: Trees, x: u64) -> Option<usize>
    ensures { (t : Row) → Are trees.entry t → FirstFree x 0 0 t trees.entry.at result }
{
    search(Scope::outer(trees), x).err()
}
