// The program that a calculus owns: cells that are those of up to 256 program rules.
ghost use Rattle.std.specs.Prelude.{◌≡◌};
ghost use Rattle.lets.specs.Syntax.{Has};
ghost use Rattle.lets.specs.Owned.{Sure, GoodRules, RuleAsked};
ghost use Rattle.terms.specs.Reading.{trees};

use crate::program::first_bad_rule;
use terms::extent::skip;

#[derive(Drop)]
pub struct Rules {
    cells: Vec<u64>,
    ghost good: { Sure (GoodRules cells.items) },
}

impl Rules {
    // The program of these cells; cells that are none count as the empty one.
    pub fn new(mut cells: Vec<u64>) -> Rules
        ensures { Has cells.items (trees result.cells.items) }
    {
        if first_bad_rule(&cells).is_some() {
            cells.clear();
        }
        Rules { cells }
    }

    // Its cells.
    pub fn cells(&self) -> &[u64]
        ensures { result.now ≡ self.now.cells.items }
    {
        &self.cells
    }

    // Where the rule of this number starts and ends in the cells, if there is one.
    // Two cell numbers, no slice: a slice has the same cells, and the place is lost.
    pub fn rule(&self, number: usize) -> Option<(usize, usize)>
        ensures { RuleAsked self.now.cells.items number result }
    {
        let cells = self.cells();
        let start = skip(cells, 0, number)?;
        let end = skip(cells, start, 1)?;
        Some((start, end))
    }
}

#[cfg(test)]
mod tests {
    use super::*;
    use std::test::Fail;

    #[test]
    fn owned_program(rt: HostRuntime) -> Result<(), Fail> {
        let arrow = (36 << 58) + (2 << 48);
        let program = Rules::new([arrow, 33 << 58, 32 << 58].to_vec(rt.alloc())?);
        assert_eq!(rt; program.rule(0), Some((0, 3)));
        assert_eq!(rt; program.rule(1), None);
        let refused = Rules::new([arrow, 33 << 58].to_vec(rt.alloc())?);
        assert_eq!(rt; refused.rule(0), None);
        Ok(())
    }
}
