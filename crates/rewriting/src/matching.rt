// Patterns matched against the terms of a redex.
ghost use Rattle.std.specs.Prelude.{length};
ghost use Rattle.terms.specs.Rows.{Row};
ghost use Rattle.rewriting.specs.Matchings.{Facing, Matched, LightBound};

use lets::kind::Kind;
use lets::light::is_light;
use terms::cell::{kind, payload};
use terms::forest::Trees;

// Matches patterns against terms that stand at the front of the cells. Notes the cells of the binding of each variable,
// and answers how many there are, if the patterns match.
pub fn match_left<'r>(patterns: &[u64], terms: &'r [u64], values: &mut [&'r [u64]]) -> Option<usize>
    requires { (p : Row) × (ts : Row) × Facing p ts patterns.now terms.now (length values.old) }
    ensures { (p ts : Row) → Facing p ts patterns.now terms.entry.now (length values.old) → Matched p ts values.new result }
{
    let mut rest = terms;
    let mut n = 0;
    for c in patterns {
        if kind(*c) == Kind::Variable as u8 {
            let first = Trees {
                cells: rest,
                at: 0,
                n: 1,
            };
            let (value, others) = rest.split_at(first.end());
            values[payload(*c) as usize] = value;
            rest = others;
            n += 1;
        } else {
            let (first, others) = rest.split_first()?;
            if first != c {
                return None;
            }
            rest = others;
        }
    }
    Some(n)
}

// Are the bindings all light?
pub fn are_light(values: &[&[u64]]) -> bool
    ensures { LightBound values.now result }
{
    values.iter().all(|value| is_light(value))
}
