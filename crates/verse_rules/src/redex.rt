// What a rule is tried on.
ghost use Rattle.calculus.specs.Figures.{Spells};
ghost use Rattle.verse.specs.Syntax.{Term};

// The cells of a term.
#[derive(Clone, Copy, PartialEq, Eq, Debug)]
pub struct Redex<'r> {
    pub cells: &'r [u64],
    pub ghost lawful: { ∥ Spells Term cells.now ∥₁ },
}
