// The five rules, by their numbers.
ghost use Rattle.rewriting.specs.Rules.{Numbered};

use calculus::no::No;

#[derive(Clone, Copy, PartialEq, Eq, Debug)]
pub enum Rule {
    Fapp = 1,
    LetIn,
    Bind,
    Elim,
    Flat,
}

impl TryFrom<u8> for Rule {
    type Error = No;

    ghost try_from_gives = { Numbered };

    // The rule of a number, if it has one.
    fn try_from(number: u8) -> Result<Rule, No> {
        match number {
            1 => Ok(Rule::Fapp),
            2 => Ok(Rule::LetIn),
            3 => Ok(Rule::Bind),
            4 => Ok(Rule::Elim),
            5 => Ok(Rule::Flat),
            _ => Err(No::NoRule),
        }
    }
}
