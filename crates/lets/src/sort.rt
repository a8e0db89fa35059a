// Which cells a sort admits: the cells that a term may begin with, and those of a program rule.
ghost use Rattle.std.specs.Prelude.{◌≡◌};
ghost use Rattle.lets.specs.Kinds.{code};
ghost use Rattle.lets.specs.Syntax.{admits, symbol};
ghost use Rattle.lets.specs.Syntax.Sort.{term, rule, left, pattern};

use crate::kind::Kind;
use terms::cell::{children, has_form, payload};

// The most children of a symbol.
const CHILDREN_MOST: usize = 255;

// Symbol numbers are below this.
const SYMBOLS: u32 = 1024;

// Is it a constructor, function or marked function, as its kind says?
fn is_symbol(c: u64, k: Kind) -> bool
    ensures { result ≡ symbol (code k) c }
{
    has_form(c, k as u8, 0, children(c)) && children(c) <= CHILDREN_MOST && payload(c) < SYMBOLS
}

// May the left side of a program rule begin with the cell?
pub fn is_left_cell(c: u64) -> bool
    ensures { result ≡ admits left c }
{
    is_symbol(c, Kind::Function)
}

// May a pattern in it?
pub fn is_pattern_cell(c: u64) -> bool
    ensures { result ≡ admits pattern c }
{
    has_form(c, Kind::Variable as u8, 0, 0) || is_symbol(c, Kind::Constructor)
}

// May a term?
pub fn is_term_cell(c: u64) -> bool
    ensures { result ≡ admits term c }
{
    is_pattern_cell(c)
        || is_left_cell(c)
        || is_symbol(c, Kind::Marked)
        || has_form(c, Kind::Let as u8, 1, 2) && payload(c) == 0
}

// May a program rule?
pub fn is_rule_cell(c: u64) -> bool
    ensures { result ≡ admits rule c }
{
    has_form(c, Kind::Rule as u8, 0, 2) && payload(c) == 0
}
