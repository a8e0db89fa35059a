// Which terms are choice-free.
ghost use Rattle.std.specs.Prelude.{◌≡◌};
ghost use Rattle.terms.specs.Forest.{Are};
ghost use Rattle.terms.specs.Rows.{Row};
ghost use Rattle.terms.specs.Rows.Row.{none, node};
ghost use Rattle.verse.specs.Contexts.{operator_first, choice_free};

use terms::cell::kind;
use terms::forest::Trees;
use verse::kind::Kind;

// Is the first of the trees an operator?
fn is_operator_first(trees: Trees) -> bool
    ensures { (t : Row) → Are trees.entry t → result ≡ operator_first t }
{
    match trees.first() {
        Some((c, _)) => kind(c) == Kind::Operator as u8,
        None => false,
    }
}

// Is the tree of a cell with these children choice-free: a value, a one, an all, an operator applied, or an exists, a
// sequence or an equation of such?
#[cycle(choice_free)]
fn is_tree_free(c: u64, below: Trees) -> bool
    ensures { (ks : Row) → Are below.entry ks → result ≡ choice_free (node c ks none) }
{
    match Kind::try_from(kind(c)) {
        Ok(Kind::Sequence | Kind::Equation | Kind::Exists) => is_choice_free(below),
        Ok(Kind::Application) => is_operator_first(below),
        Ok(Kind::Fail | Kind::Choice) | Err(_) => false,
        Ok(_) => true,
    }
}

// Is each of the trees?
#[cycle(choice_free)]
pub fn is_choice_free(trees: Trees) -> bool
    ensures { (t : Row) → Are trees.entry t → result ≡ choice_free t }
{
    let mut rest = trees;
    while let Some((c, below)) = rest.first() {
        if !is_tree_free(c, below) {
            return false;
        }
        rest = rest.others(below.end());
    }
    true
}
