// What a place of a term calls for.
ghost use Rattle.std.specs.Prelude.{◌≡◌, Decides};
ghost use Rattle.terms.specs.Cells.{kind};
ghost use Rattle.verse.specs.Syntax.{admits, Calls};
ghost use Rattle.verse_terms.specs.Sorts.{sort_of, first_sort, child_sort};

use crate::form::read;
use terms::cell::kind;
use verse::kind::Kind;

// A value, an expression, or what a sequence begins with: an equation or an expression. Each sort takes all that the
// sorts before it take.
#[derive(Clone, Copy, PartialEq, Eq, PartialOrd, Ord, Hash, Debug)]
pub enum Sort {
    Value,
    Expression,
    FirstPart,
}

// The first sort that takes a cell of the kind.
impl From<Kind> for Sort {
    ghost from_gives = { λ kind sort. sort ≡ first_sort kind };

    fn from(kind: Kind) -> Sort {
        match kind {
            Kind::Variable | Kind::Integer | Kind::Operator | Kind::Tuple | Kind::Lambda => {
                Sort::Value
            }
            Kind::Equation => Sort::FirstPart,
            _ => Sort::Expression,
        }
    }
}

// The sort of the child number n of a cell.
pub fn child_sort(c: u64, n: usize) -> Sort
    ensures { sort_of result ≡ child_sort (kind c) n }
{
    match (Kind::try_from(kind(c)), n) {
        (Ok(Kind::Tuple | Kind::Application), _) | (Ok(Kind::Equation), 0) => Sort::Value,
        (Ok(Kind::Sequence), 0) => Sort::FirstPart,
        _ => Sort::Expression,
    }
}

impl Sort {
    // May a tree of the sort begin with the cell?
    pub fn admits(self, c: u64) -> bool
        ensures { result ≡ admits (sort_of self) c }
    {
        match read(c) {
            Some(kind) => Sort::from(kind) <= self,
            None => false,
        }
    }

    // Is a place of the sort a site, with the cell there?
    pub fn is_site(self, c: u64) -> bool
        ensures { Decides result (Calls (sort_of self) c) }
    {
        match self {
            Sort::Value => false,
            Sort::Expression => true,
            Sort::FirstPart => kind(c) != Kind::Equation as u8,
        }
    }
}
