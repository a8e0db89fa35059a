// Trees that stand side by side among cells.
ghost use Rattle.std.specs.Prelude.{◌≡◌, ◌+◌, ◌-◌, ◌≤◌};
ghost use Rattle.terms.specs.Rows.{Row, size};
ghost use Rattle.terms.specs.Standing.{Standing};

use crate::cell::children;
use crate::extent::skip;

// n trees, the first of which stands at the cell number `at`.
#[derive(Clone, Copy)]
pub struct Trees<'c> {
    pub cells: &'c [u64],
    pub at: usize,
    pub n: usize,
    pub ghost standing: { ∥ Standing n cells.now at ∥₁ },
}

impl<'c> Trees<'c> {
    ghost use Rattle.terms.specs.Forest.{Are, Part, Headed, Ended};

    // Where they end.
    pub fn end(self) -> usize
        ensures { (t : Row) → Are self.entry t → result ≡ self.entry.at + size t }
    {
        skip(self.cells, self.at, self.n).unwrap()
    }

    // The cell of the first, and its children; none where there is no tree.
    pub fn first(self) -> Option<(u64, Trees<'c>)>
        ensures { Headed self.entry result }
    {
        if self.n == 0 {
            return None;
        }
        let c = self.cells[self.at];
        let below = Trees {
            cells: self.cells,
            at: self.at + 1,
            n: children(c),
        };
        Some((c, below))
    }

    // The trees after the first, whose children end at a cell.
    pub fn others(self, next: usize) -> Trees<'c>
        requires some { 1 ≤ self.n }
        requires ended { Ended self next }
        ensures { Part self.entry next (self.entry.n - 1) result }
    {
        Trees {
            cells: self.cells,
            at: next,
            n: self.n - 1,
        }
    }
}
