// Let-rewriting over a program, as a calculus.
#![tactic(auto)]

ghost use Rattle.std.specs.Prelude.{◌<◌, Decides};
ghost use Rattle.terms.specs.Rows.{width};
ghost use Rattle.lets.specs.Syntax.{Has};
ghost use Rattle.lets.specs.Figure.{Apt, fapp as fapp_line};
ghost use Rattle.lets.specs.Meaning.{meaning as lets_meaning};
ghost use Rattle.rewriting.specs.Rules.{number};
ghost use Rattle.rewriting.specs.Steps.{Steps};
ghost use Rattle.rewriting.specs.Programs.{program};
ghost use Rattle.lets.proofs.MoreLaws.{keeps_laws};
ghost use Rattle.lets.proofs.Owners.{good_rules};

pub mod bind;
pub mod elim;
pub mod fapp;
pub mod flat;
pub mod letin;
pub mod matching;
pub mod redex;
pub mod rule;
mod writing;

use bind::bind_light;
use calculus::Calculus;
use calculus::no::No;
use elim::eliminate;
use fapp::call;
use flat::flatten_lets;
use letin::let_in;
use lets::judge::judge;
use lets::rules::Rules;
use redex::Redex;
use rule::Rule;
use terms::place::down;

#[derive(Drop)]
pub struct LetRewriting {
    rules: Rules,
}

impl LetRewriting {
    // Over the program of these cells; cells that are none count as the empty one.
    pub fn new(cells: Vec<u64>) -> LetRewriting
        ensures { Has cells.items (program result) }
    {
        LetRewriting {
            rules: Rules::new(cells),
        }
    }

    // Are the argument and the inner place used as the rule asks?
    fn is_apt(&self, rule: Rule, argument: u8, inner: &[u8]) -> bool
        ensures { Decides result (Apt (program self.now) (number rule) argument inner.now) }
    {
        if !inner.is_empty() {
            return false;
        }
        match rule {
            Rule::Fapp => self.rules.rule(argument as usize).is_some(),
            Rule::LetIn => true,
            Rule::Bind | Rule::Elim | Rule::Flat => argument == 0,
        }
    }

    // Fapp by the program rule that the argument numbers.
    fn call_rule(&self, argument: u8, redex: Redex, space: &mut [u64]) -> Result<usize, No>
        requires { argument < width (program self.now) }
        ensures { Steps (fapp_line (program self.now) argument) redex.entry.cells.now space.old space.new result }
    {
        let (start, end) = self.rules.rule(argument as usize).unwrap();
        call(&self.rules.cells()[start..end], redex, space)
    }
}

impl Calculus for LetRewriting {
    ghost meaning = { λ s. lets_meaning (program s) };

    ghost laws = { λ s. keeps_laws (program s) (good_rules _ s.rules.good).rules };

    fn judge(&self, cells: &[u64]) -> Result<(usize, usize), usize> {
        judge(cells)
    }

    fn site(&self, cells: &[u64], place: &[u8]) -> bool {
        judge(cells).is_ok() && down(cells, place).is_ok()
    }

    fn step(
        &self,
        rule: u8,
        argument: u8,
        inner: &[u8],
        redex: &[u64],
        space: &mut [u64],
    ) -> Result<usize, No> {
        let rule = Rule::try_from(rule)?;
        if !self.is_apt(rule, argument, inner) {
            return Err(No::Unfit);
        }
        let redex = Redex::read(redex)?;
        match rule {
            Rule::Fapp => self.call_rule(argument, redex, space),
            Rule::LetIn => let_in(argument, redex, space),
            Rule::Bind => bind_light(redex, space),
            Rule::Elim => eliminate(redex, space),
            Rule::Flat => flatten_lets(redex, space),
        }
    }
}

#[cfg(test)]
mod tests {
    use super::*;
    use crate::redex::LET_CELL;
    use std::test::Fail;

    // Constructors 1 and 2, functions 3 and 4.
    const PAIR: u64 = (32 << 58) + (2 << 48) + 1;

    const UNIT: u64 = (32 << 58) + 2;

    const HEAVY: u64 = (33 << 58) + 3;

    const LIGHT: u64 = (34 << 58) + 3;

    const SHARE: u64 = (33 << 58) + (1 << 48) + 4;

    const SHARE_MARKED: u64 = (34 << 58) + (1 << 48) + 4;

    const ARROW: u64 = (36 << 58) + (2 << 48);

    // 4(x) → let Y = 3 in 1(x, Y)
    const SHARING: [u64; 8] = [ARROW, SHARE, 0, LET_CELL, HEAVY, PAIR, 1, 0];

    #[test]
    fn binds_light_terms(rt: HostRuntime) -> Result<(), Fail> {
        let lets = LetRewriting::new(SHARING.to_vec(rt.alloc())?);
        let mut space = [9; 6];
        assert_eq!(rt;
            lets.step(3, 0, &[], &[LET_CELL, LIGHT, PAIR, 0, 0], &mut space),
            Ok(3)
        );
        assert_eq!(rt; space, [PAIR, LIGHT, LIGHT, 9, 9, 9]);
        assert_eq!(rt;
            lets.step(
                3,
                0,
                &[],
                &[LET_CELL, 7, LET_CELL, 0, PAIR, 1, 2],
                &mut space,
            ),
            Ok(5)
        );
        assert_eq!(rt; space, [LET_CELL, 7, PAIR, 8, 1, 9]);
        assert_eq!(rt;
            lets.step(3, 0, &[], &[LET_CELL, HEAVY, PAIR, 0, 0], &mut space),
            Err(No::Barred)
        );
        Ok(())
    }

    #[test]
    fn calls_by_light_bindings(rt: HostRuntime) -> Result<(), Fail> {
        let lets = LetRewriting::new(SHARING.to_vec(rt.alloc())?);
        let mut space = [9; 6];
        assert_eq!(rt; lets.step(1, 0, &[], &[SHARE, 3], &mut space), Ok(5));
        assert_eq!(rt; space, [LET_CELL, HEAVY, PAIR, 4, 0, 9]);
        assert_eq!(rt; lets.step(1, 0, &[], &[SHARE_MARKED, 8], &mut space), Ok(5));
        assert_eq!(rt; space, [LET_CELL, HEAVY, PAIR, 9, 0, 9]);
        assert_eq!(rt;
            lets.step(1, 0, &[], &[SHARE, HEAVY], &mut space),
            Err(No::Barred)
        );
        assert_eq!(rt;
            lets.step(1, 0, &[], &[PAIR, UNIT, UNIT], &mut space),
            Err(No::Formless)
        );
        assert_eq!(rt;
            lets.step(1, 1, &[], &[SHARE, 3], &mut space),
            Err(No::Unfit)
        );
        Ok(())
    }

    #[test]
    fn lets_a_child_in(rt: HostRuntime) -> Result<(), Fail> {
        let lets = LetRewriting::new(SHARING.to_vec(rt.alloc())?);
        let mut space = [9; 6];
        assert_eq!(rt; lets.step(2, 1, &[], &[PAIR, 3, HEAVY], &mut space), Ok(5));
        assert_eq!(rt; space, [LET_CELL, HEAVY, PAIR, 4, 0, 9]);
        assert_eq!(rt;
            lets.step(2, 0, &[], &[PAIR, 3, HEAVY], &mut space),
            Err(No::Barred)
        );
        assert_eq!(rt;
            lets.step(2, 1, &[], &[PAIR, 3, LIGHT], &mut space),
            Err(No::Barred)
        );
        assert_eq!(rt;
            lets.step(2, 2, &[], &[PAIR, 3, HEAVY], &mut space),
            Err(No::Formless)
        );
        Ok(())
    }

    #[test]
    fn drops_and_flattens_lets(rt: HostRuntime) -> Result<(), Fail> {
        let lets = LetRewriting::new(SHARING.to_vec(rt.alloc())?);
        let mut space = [9; 8];
        assert_eq!(rt;
            lets.step(4, 0, &[], &[LET_CELL, HEAVY, 6], &mut space),
            Ok(1)
        );
        assert_eq!(rt; space, [5, 9, 9, 9, 9, 9, 9, 9]);
        assert_eq!(rt;
            lets.step(4, 0, &[], &[LET_CELL, HEAVY, 0], &mut space),
            Err(No::Barred)
        );
        assert_eq!(rt;
            lets.step(
                5,
                0,
                &[],
                &[LET_CELL, LET_CELL, HEAVY, 0, PAIR, 0, 6],
                &mut space,
            ),
            Ok(7)
        );
        assert_eq!(rt; space, [LET_CELL, HEAVY, LET_CELL, 0, PAIR, 0, 7, 9]);
        Ok(())
    }

    #[test]
    fn says_no(rt: HostRuntime) -> Result<(), Fail> {
        let lets = LetRewriting::new(SHARING.to_vec(rt.alloc())?);
        let mut space = [9; 4];
        let redex = [PAIR, 3, HEAVY];
        assert_eq!(rt; lets.step(0, 0, &[], &redex, &mut space), Err(No::NoRule));
        assert_eq!(rt; lets.step(6, 0, &[], &redex, &mut space), Err(No::NoRule));
        assert_eq!(rt; lets.step(3, 1, &[], &redex, &mut space), Err(No::Unfit));
        assert_eq!(rt; lets.step(2, 1, &[0], &redex, &mut space), Err(No::Unfit));
        assert_eq!(rt;
            lets.step(2, 1, &[], &[PAIR, 3], &mut space),
            Err(No::Formless)
        );
        assert_eq!(rt;
            lets.step(2, 1, &[], &[PAIR, 65536, HEAVY], &mut space),
            Err(No::Formless)
        );
        assert_eq!(rt; lets.step(2, 1, &[], &redex, &mut space), Err(No::Overlong));
        assert_eq!(rt; space, [9; 4]);
        Ok(())
    }

    #[test]
    fn judges_and_finds_sites(rt: HostRuntime) -> Result<(), Fail> {
        let lets = LetRewriting::new(SHARING.to_vec(rt.alloc())?);
        assert_eq!(rt; lets.judge(&[PAIR, 3, HEAVY]), Ok((3, 2)));
        assert_eq!(rt; lets.judge(&[PAIR, 3, ARROW]), Err(2));
        assert!(rt; lets.site(&[PAIR, 3, HEAVY], &[1]));
        assert!(rt; !lets.site(&[PAIR, 3, HEAVY], &[2]));
        assert!(rt; !lets.site(&[PAIR, 3], &[0]));
        Ok(())
    }
}
