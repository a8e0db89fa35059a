// The parts of a term, as trees by themselves.
ghost use Rattle.std.specs.Prelude.{◌≤◌, IfSome};
ghost use Rattle.verse_contexts.specs.Parts.{First, Second};

use terms::forest::Trees;

// The first of some trees.
pub fn first(trees: Trees<'_>) -> Option<Trees<'_>>
    ensures { First trees.entry result }
{
    if trees.n == 0 {
        return None;
    }
    Some(Trees {
        cells: trees.cells,
        at: trees.at,
        n: 1,
    })
}

// The trees after the first.
pub fn second(trees: Trees<'_>) -> Option<Trees<'_>>
    ensures { Second trees.entry result }
{
    let (_, below) = trees.first()?;
    Some(trees.others(below.end()))
}
