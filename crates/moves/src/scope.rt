// Trees that lie under binders.
ghost use Rattle.std.specs.Prelude.{◌≡◌, ◌+◌, ◌-◌, ◌^◌, ◌<◌, ◌≤◌, length};
ghost use Rattle.terms.specs.Forest.{Ended};

use crate::renaming::binders_above;
use terms::cell::binder;
use terms::forest::Trees;

// Trees under d binders, the last of them under b more.
#[derive(Clone, Copy)]
pub struct Scope<'c> {
    pub trees: Trees<'c>,
    pub d: u64,
    pub b: u64,
    pub ghost low: { d + b + (length trees.cells.now - trees.at) < 2 ^ 62 },
}

impl<'c> Scope<'c> {
    ghost use Rattle.moves.specs.Scopes.{Outer, Opens, Rest};

    // Trees under no binder.
    pub fn outer(trees: Trees<'c>) -> Scope<'c>
        ensures { Outer trees.entry result }
    {
        Scope { trees, d: 0, b: 0 }
    }

    // The cell of the first tree, and its children; none where there is no tree.
    pub fn first(self) -> Option<(u64, Scope<'c>)>
        ensures { Opens self.entry result }
    {
        let (c, trees) = self.trees.first()?;
        let d = binders_above(self.trees.n, self.d, self.b);
        let inner = Scope {
            trees,
            d,
            b: binder(c),
        };
        Some((c, inner))
    }

    // The trees after the first, whose children end at a cell.
    pub fn others(self, next: usize) -> Scope<'c>
        requires some { 1 ≤ self.trees.n }
        requires ended { Ended self.trees next }
        ensures { Rest self.entry next result }
    {
        Scope {
            trees: self.trees.others(next),
            d: self.d,
            b: self.b,
        }
    }
}
