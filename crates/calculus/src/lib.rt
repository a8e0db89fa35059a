// A calculus: what it means, what it owes, and what it answers.
#![tactic(auto)]

ghost use Rattle.std.specs.Prelude.{◌≡◌};
ghost use Rattle.calculus.specs.Meaning.{Meaning};
ghost use Rattle.calculus.specs.Laws.{Laws};
ghost use Rattle.calculus.specs.Answers.{Judged, SiteAsked, StepAsked};
ghost use Rattle.calculus.specs.Rewriting.{StepsKeep};

pub mod no;

use no::No;

pub trait Calculus {
    ghost meaning: { Self → Meaning };

    // The cells and the depth of a lawful term, or the first cell where no lawful term can go on, else the count.
    fn judge(&self, cells: &[u64]) -> Result<(usize, usize), usize>
        ensures { Judged (meaning self.now) cells.now result };

    // Is the place a site of the cells?
    fn site(&self, cells: &[u64], place: &[u8]) -> bool
        ensures { SiteAsked (meaning self.now) cells.now place.now result };

    // Writes the given term at the front of the space and answers its length, or says why not.
    fn step(
        &self,
        rule: u8,
        argument: u8,
        inner: &[u8],
        redex: &[u64],
        space: &mut [u64],
    ) -> Result<usize, No>
        ensures { StepAsked (meaning self.now) rule argument inner.now redex.now space.old space.new result };

    ghost laws: { (s : Self) → Laws (meaning s) };
}

// For every calculus, from its laws alone: a step at a site keeps the whole lawful, frees no variable, and keeps the layout
// where cells and depth keep their limits.
pub fn steps_keep<C: Calculus>(calculus: &C) -> bool
    ensures { StepsKeep (C.Calculus.meaning calculus.now) }
{
    true
}
