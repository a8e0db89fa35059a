// Down an inner place by a scope context, and then by a choice context.
ghost use Rattle.std.specs.Prelude.{◌≤◌, ◌↔◌, IsTrue};
ghost use Rattle.terms.specs.Cells.{kind};
ghost use Rattle.terms.specs.Forest.{Are};
ghost use Rattle.terms.specs.Rows.{Row};
ghost use Rattle.verse.specs.Contexts.{SC, SX};
ghost use Rattle.verse.specs.Syntax.{Exp};
ghost use Rattle.verse_contexts.specs.Scopes.{Branched, AtOnce};

use crate::down::{Way, down};
use crate::part::{first, second};
use terms::cell::kind;
use terms::forest::Trees;
use verse::kind::Kind;

// Where the choice context begins, and where its hole is.
#[derive(Clone, Copy, PartialEq, Eq, Debug)]
pub struct Branch {
    pub scope: usize,
    pub hole: usize,
}

// From the expression by a choice context alone.
fn down_choice(expression: Trees, inner: &[u8]) -> Option<Branch>
    ensures { (t : Row) → Exp t → Are expression.entry t → AtOnce inner.now t expression.entry.at result }
{
    let hole = down(Way::Choice, expression, inner)?;
    Some(Branch {
        scope: expression.at,
        hole,
    })
}

// From the expression by choices, as far as there are any, and then by a choice context.
pub fn down_choices(expression: Trees, inner: &[u8]) -> Option<Branch>
    ensures { (t : Row) → Exp t → Are expression.entry t → Branched SC inner.now t expression.entry.at result }
{
    let mut scope = expression;
    let mut left = inner;
    while let Some((&entry, rest)) = left.split_first() {
        let (c, parts) = scope.first()?;
        if kind(c) != Kind::Choice as u8 {
            return down_choice(scope, left);
        }
        scope = match entry {
            0 => first(parts)?,
            1 => second(parts)?,
            _ => return None,
        };
        left = rest;
    }
    down_choice(scope, left)
}

// Is the cell a one or an all?
fn is_scope(c: u64) -> bool
    ensures { IsTrue result ↔ ((11 ≤ kind c) × (kind c ≤ 12)) }
{
    matches!(Kind::try_from(kind(c)), Ok(Kind::One | Kind::All))
}

// From a one or an all, by its choices and then by a choice context.
pub fn down_scope(expression: Trees, inner: &[u8]) -> Option<Branch>
    ensures { (t : Row) → Exp t → Are expression.entry t → Branched SX inner.now t expression.entry.at result }
{
    let (c, parts) = expression.first()?;
    match inner {
        [0, rest @ ..] if is_scope(c) => down_choices(parts, rest),
        _ => None,
    }
}
