// Light terms: variables, and constructors and marked functions whose children are all light.
ghost use Rattle.std.specs.Prelude.{◌≡◌};
ghost use Rattle.lets.specs.Lightness.{light_cell, LightAsked};

use crate::kind::Kind;
use terms::cell::kind;

// Is the cell a variable, a constructor or a marked function?
fn is_light_cell(c: u64) -> bool
    ensures { result ≡ light_cell c }
{
    let k = kind(c);
    k == Kind::Variable as u8 || k == Kind::Constructor as u8 || k == Kind::Marked as u8
}

// Are the lawful terms that these cells spell side by side all light?
pub fn is_light(cells: &[u64]) -> bool
    ensures { LightAsked cells.now result }
{
    cells.iter().all(|&c| is_light_cell(c))
}
