// What stands for the free variables of a term.
ghost use Rattle.std.specs.Prelude.{◌≡◌, ◌+◌, ◌-◌, ◌^◌, ◌<◌, ◌≤◌, length};
ghost use Rattle.terms.specs.Rows.{Row, size, raise};
ghost use Rattle.moves.specs.declared.images.Substitution.TheVariants.{Replace, Instead, Bindings};
ghost use Rattle.moves.specs.Images.{image_of, extent, Shown};
ghost use Rattle.moves.specs.Moved.{Written};

use crate::renaming::{Renaming, rename, renumber};
use terms::forest::Trees;

// What stands for a free number: the cells of a tree, or another number.
#[derive(Clone, Copy, PartialEq, Eq, Debug)]
pub enum Image<'v> {
    Tree(&'v [u64]),
    Number(u64),
}

impl<'v> Image<'v> {
    // How many cells it has.
    pub fn size(self) -> usize
        ensures { result ≡ extent self.entry }
    {
        match self {
            Image::Tree(value) => value.len(),
            Image::Number(_) => 1,
        }
    }

    // Writes it at the front of `out`, raised by d. Answers how many cells it has.
    pub fn write(self, out: &mut [u64], d: u64) -> usize
        requires shown { (t : Row) × Shown self t × size t ≤ length out.old }
        requires low { d < 2 ^ 63 }
        ensures { (t : Row) → Shown self.entry t → Written (raise d t) out.old out.new result }
    {
        match self {
            Image::Tree(cells) => {
                let tree = Trees { cells, at: 0, n: 1 };
                rename(tree, Renaming::Raise(d), out)
            }
            Image::Number(n) => {
                out[0] = renumber(n, Renaming::Raise(d), 0);
                1
            }
        }
    }
}

// Which trees and numbers stand for the free variables.
#[derive(Clone, Copy, Debug)]
pub enum Substitution<'v> {
    // A tree for x, and every other number for itself.
    Replace { x: u64, value: &'v [u64] },
    // A tree for 0, and for any other number the one below it.
    Instead { value: &'v [u64] },
    // The tree of that number among these for a number, and every number past them for itself.
    Bindings { values: &'v [&'v [u64]] },
}

impl<'v> Substitution<'v> {
    // The tree for x.
    pub fn replace(x: u64, value: &'v [u64]) -> Substitution<'v>
        ensures { result ≡ Replace x value.entry }
    {
        Substitution::Replace { x, value }
    }

    // The tree for the variable of the nearest binder.
    pub fn instead(value: &'v [u64]) -> Substitution<'v>
        ensures { result ≡ Instead value.entry }
    {
        Substitution::Instead { value }
    }

    // The trees for 0, 1 and so on.
    pub fn bindings(values: &'v [&'v [u64]]) -> Substitution<'v>
        ensures { result ≡ Bindings values.entry }
    {
        Substitution::Bindings { values }
    }

    // What stands for a free number.
    pub fn image(self, n: u64) -> Image<'v>
        ensures { result ≡ image_of self.entry n }
    {
        match self {
            Substitution::Replace { x, value } if n == x => Image::Tree(value),
            Substitution::Replace { .. } => Image::Number(n),
            Substitution::Instead { value } if n == 0 => Image::Tree(value),
            Substitution::Instead { .. } => Image::Number(n - 1),
            Substitution::Bindings { values } => match values.get(n as usize) {
                Some(value) => Image::Tree(value),
                None => Image::Number(n),
            },
        }
    }
}
