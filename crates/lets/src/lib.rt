// Let-rewriting: which cells are a term, which terms are light, which cells are a program; the rules are in specs/.
#![tactic(auto)]

ghost use Rattle.lets.specs.Examples.{Examples};
ghost use Rattle.lets.specs.Laws.{FirstLaw, SecondLaw, Matching, OneAnswer, SomeLaws};
ghost use Rattle.lets.specs.Meaning.{KeepsLaws};

pub mod judge;
pub mod kind;
pub mod light;
pub mod program;
pub mod rules;
pub mod sort;

// The examples are theorems of the definitions.
pub fn examples_stand() -> u8
    ensures { Examples }
{
    0
}

// The same question has the same answer, under every rule.
pub fn one_answer() -> u8
    ensures { OneAnswer }
{
    0
}

// Both laws, for two rules.
pub fn some_laws() -> u8
    ensures { SomeLaws }
{
    0
}

// To match is to be the patterns with their bindings.
pub fn matching_stands() -> u8
    ensures { Matching }
{
    0
}

// Both laws, for every rule.
pub fn both_laws() -> u8
    ensures { FirstLaw × SecondLaw }
{
    0
}

// The meaning keeps what every calculus owes.
pub fn keeps_laws() -> u8
    ensures { KeepsLaws }
{
    0
}
