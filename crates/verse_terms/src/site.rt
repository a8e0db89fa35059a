// Which places of a term are sites.
ghost use Rattle.std.specs.Prelude.{◌≡◌, Decides};
ghost use Rattle.calculus.specs.Answers.{SiteAsked};
ghost use Rattle.terms.specs.Rows.{Row, flat};
ghost use Rattle.verse.specs.Meaning.{meaning};
ghost use Rattle.verse.specs.Syntax.{Term, Site};

use crate::judge::judge;
use crate::sort::{Sort, child_sort};
use terms::place::child;

// Is the place a site of the term?
pub fn is_site(cells: &[u64], place: &[u8]) -> bool
    requires { (t : Row) × Term t × flat t ≡ cells.now }
    ensures { (t : Row) → Term t → flat t ≡ cells.now → Decides result (Site t place.now) }
{
    let mut at = 0;
    let mut sort = Sort::Expression;
    for entry in place {
        let n = *entry as usize;
        let Some(next) = child(cells, at, n) else {
            return false;
        };
        sort = child_sort(cells[at], n);
        at = next;
    }
    sort.is_site(cells[at])
}

// Are the cells a lawful term, and the place a site of it?
pub fn has_site(cells: &[u64], place: &[u8]) -> bool
    ensures { SiteAsked meaning cells.now place.now result }
{
    judge(cells).is_ok() && is_site(cells, place)
}
