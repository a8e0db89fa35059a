// The forms of the cells that terms are made of, kind by kind.
ghost use Rattle.std.specs.Prelude.{◌≡◌};
ghost use Rattle.verse.specs.Kind.{number_of};
ghost use Rattle.verse.specs.Syntax.{plain};
ghost use Rattle.verse_terms.specs.Forms.{formed, Read};

use terms::cell::{children, has_form, kind, payload};
use verse::kind::Kind;

// The largest payload of an operator, and the most parts of a tuple.
const LAST_OPERATOR: u32 = 1;

const PARTS_MOST: usize = 255;

// Has the cell that kind, binder and number of children, and all else 0?
fn is_plain(c: u64, kind: Kind, binder: u64, children: usize) -> bool
    ensures { result ≡ plain (number_of kind) binder children c }
{
    has_form(c, kind as u8, binder, children) && payload(c) == 0
}

// Is it a cell of the kind, as terms have it?
pub fn is_formed(c: u64, kind: Kind) -> bool
    ensures { result ≡ formed kind c }
{
    match kind {
        Kind::Variable | Kind::Integer => has_form(c, kind as u8, 0, 0),
        Kind::Operator => has_form(c, kind as u8, 0, 0) && payload(c) <= LAST_OPERATOR,
        Kind::Tuple => is_plain(c, kind, 0, children(c)) && children(c) <= PARTS_MOST,
        Kind::Fail => is_plain(c, kind, 0, 0),
        Kind::Lambda | Kind::Exists => is_plain(c, kind, 1, 1),
        Kind::One | Kind::All => is_plain(c, kind, 0, 1),
        Kind::Application | Kind::Sequence | Kind::Equation | Kind::Choice => {
            is_plain(c, kind, 0, 2)
        }
    }
}

// The kind of a cell of a term; none where no term has the cell.
pub fn read(c: u64) -> Option<Kind>
    ensures { Read c result }
{
    let kind = Kind::try_from(kind(c)).ok()?;
    is_formed(c, kind).then_some(kind)
}
