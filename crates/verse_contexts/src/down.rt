// Down an inner place by a context.
ghost use Rattle.std.specs.Prelude.{Decides};
ghost use Rattle.terms.specs.Forest.{Are};
ghost use Rattle.terms.specs.Rows.{Row};
ghost use Rattle.verse.specs.Syntax.{Exp};
ghost use Rattle.verse_contexts.specs.Walks.{Goes, Passes, Walked};

use crate::part::{first, second};
use terms::cell::kind;
use terms::forest::Trees;
use verse::kind::Kind;
use verse_terms::free::is_choice_free;

// The kinds of context: execution contexts, and choice contexts, which also pass an exists, but no first part of a
// sequence that is not choice-free.
#[derive(Clone, Copy, PartialEq, Eq, Debug)]
pub enum Way {
    Execution,
    Choice,
}

impl Way {
    // May a context of the kind pass the tree, a sequence's first part, on its way to the second?
    fn passes(self, part: Trees) -> bool
        ensures { (q : Row) → Are part.entry q → Decides result (Passes self q) }
    {
        match self {
            Way::Execution => true,
            Way::Choice => is_choice_free(part),
        }
    }
}

// Where the hole is, if the inner place leads to one from the expression by a context of that kind.
pub fn down(way: Way, expression: Trees, inner: &[u8]) -> Option<usize>
    ensures { (t : Row) → Exp t → Are expression.entry t → Walked (Goes way) inner.now t expression.entry.at result }
{
    let mut hole = expression;
    let mut left = inner;
    while let Some((&entry, rest)) = left.split_first() {
        let (c, parts) = hole.first()?;
        let part = first(parts)?;
        let Ok(kind_of) = Kind::try_from(kind(c)) else {
            return None;
        };
        match (kind_of, entry) {
            (Kind::Sequence, 0) => {
                let (head, below) = part.first()?;
                if kind(head) != Kind::Equation as u8 {
                    hole = part;
                    left = rest;
                } else {
                    match rest {
                        [1, rest @ ..] => {
                            hole = second(below)?;
                            left = rest;
                        }
                        _ => return None,
                    }
                }
            }
            (Kind::Sequence, 1) if way.passes(part) => {
                hole = second(parts)?;
                left = rest;
            }
            (Kind::Exists, 0) if way == Way::Choice => {
                hole = part;
                left = rest;
            }
            _ => return None,
        }
    }
    Some(hole.at)
}
