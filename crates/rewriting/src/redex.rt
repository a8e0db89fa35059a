// A redex: the cells of a lawful term, and the parts of one.
ghost use Rattle.std.specs.Prelude.{◌≡◌, ◌≤◌, ◌⊎◌, Decides, slice_index};
ghost use Rattle.terms.specs.Cells.{kind};
ghost use Rattle.terms.specs.Rows.{Row};
ghost use Rattle.terms.specs.Forest.{Are};
ghost use Rattle.calculus.specs.Figures.{Spells};
ghost use Rattle.calculus.specs.Line.{Redex as Lawful};
ghost use Rattle.lets.specs.Syntax.{Term};

use calculus::no::No;
use lets::judge::judge;
use lets::kind::Kind;
use terms::cell::{children, kind};
use terms::forest::Trees;
use terms::small::has_small_variables;

// The cell of a let: kind 35, a binder, two children.
pub const LET_CELL: u64 = 0x8E02_0000_0000_0000;

// The variable of the nearest binder, as a cell and as a number.
pub const NEAREST: u64 = 0;

// The cells of a lawful term, which a rule may be tried on.
#[derive(Clone, Copy)]
pub struct Redex<'r> {
    pub cells: &'r [u64],
    pub ghost lawful: { ∥ Spells Term cells.now ∥₁ },
}

// What a let binds, and its body.
#[derive(Clone, Copy)]
pub struct LetParts<'r> {
    pub bound: Redex<'r>,
    pub body: Redex<'r>,
}

// A symbol's cell, and a child of it between the others.
#[derive(Clone, Copy)]
pub struct SymbolParts<'r> {
    pub head: u64,
    pub before: Trees<'r>,
    pub child: Redex<'r>,
    pub after: Trees<'r>,
}

// May a rule be tried on the cells: are they a lawful term with no variable payload above 65,535?
fn is_redex(cells: &[u64]) -> bool
    ensures { Decides result (Lawful Term cells.now) }
{
    judge(cells).is_ok() && has_small_variables(cells)
}

// Is the cell a constructor, a function or a marked function?
fn is_head(c: u64) -> bool
    ensures { Decides result ((32 ≤ kind c) × (kind c ≤ 34)) }
{
    kind(c) >= Kind::Constructor as u8 && kind(c) <= Kind::Marked as u8
}

impl<'r> Redex<'r> {
    ghost use Rattle.rewriting.specs.Redexes.{Is, Read, HasLetParts, HasSymbolParts};

    // The cells, if they are a lawful term with no variable payload above 65,535.
    pub fn read(cells: &'r [u64]) -> Result<Redex<'r>, No>
        ensures { Read cells.entry.now result }
    {
        if !is_redex(cells) {
            return Err(No::Formless);
        }
        Ok(Redex { cells })
    }

    // Its first cell.
    pub fn head(self) -> u64
        ensures { result ≡ slice_index self.entry.cells.now 0 }
    {
        self.cells[0]
    }

    // It among its cells.
    pub fn trees(self) -> Trees<'r>
        ensures { (t : Row) → Is self.entry t → Are result t }
    {
        Trees {
            cells: self.cells,
            at: 0,
            n: 1,
        }
    }

    // What it binds and its body, if it is a let.
    pub fn as_let(self) -> Result<LetParts<'r>, No>
        ensures { (t : Row) → Is self.entry t → HasLetParts t result }
    {
        if kind(self.head()) != Kind::Let as u8 {
            return Err(No::Formless);
        }
        let bound = Trees {
            cells: self.cells,
            at: 1,
            n: 1,
        };
        let body = bound.end();
        Ok(LetParts {
            bound: Redex {
                cells: &self.cells[1..body],
            },
            body: Redex {
                cells: &self.cells[body..],
            },
        })
    }

    // Its cell, the child of that number and the others, if it is a symbol that has one.
    pub fn with_child(self, n: usize) -> Result<SymbolParts<'r>, No>
        ensures { (t : Row) → Is self.entry t → HasSymbolParts n t result }
    {
        let head = self.head();
        let count = children(head);
        if !is_head(head) || n >= count {
            return Err(No::Formless);
        }
        let before = Trees {
            cells: self.cells,
            at: 1,
            n,
        };
        let child = Trees {
            cells: self.cells,
            at: before.end(),
            n: 1,
        };
        let after = Trees {
            cells: self.cells,
            at: child.end(),
            n: count - n - 1,
        };
        Ok(SymbolParts {
            head,
            before,
            child: Redex {
                cells: &self.cells[child.at..after.at],
            },
            after,
        })
    }
}
