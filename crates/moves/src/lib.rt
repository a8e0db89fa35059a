// Terms moved into lent space: their variables renamed, and terms put for them.
#![tactic(auto)]

ghost use Rattle.std.specs.Prelude.{◌^◌, ◌<◌};
ghost use Rattle.terms.specs.Rows.{rename, raise, down, replace, instantiate};
ghost use Rattle.moves.specs.Images.{Puts};
ghost use Rattle.moves.specs.Moved.{OneTerm, Moved, MovedWith, put};
ghost use Rattle.moves.specs.Renamings.{renamed, most};

pub mod images;
pub mod laws;
pub mod occurs;
pub mod renaming;
pub mod scope;
pub mod substitution;

use images::Substitution;
use renaming::{Renaming, rename};
use terms::extent::skip;
use terms::forest::Trees;

// Why a term is not moved.
#[derive(Clone, Copy, PartialEq, Eq, Debug)]
pub enum Unmoved {
    // The cells are no one term,
    NoTerm,
    // or the value's are none,
    NoValue,
    // or the result has more cells than the space.
    NoRoom,
}

// The cells as one tree, if they are one term.
fn one_term(cells: &[u64]) -> Option<Trees<'_>>
    ensures { OneTerm cells.now result }
{
    let end = skip(cells, 0, 1)?;
    if end != cells.len() {
        return None;
    }
    Some(Trees { cells, at: 0, n: 1 })
}

// The term with its free variables renamed, at the front of the space. Answers its count.
fn rename_term(cells: &[u64], how: Renaming, space: &mut [u64]) -> Result<usize, Unmoved>
    requires { most how < 2 ^ 63 }
    ensures { Moved (rename (renamed how) 0 0) cells.now space.old space.new result }
{
    let term = one_term(cells).ok_or(Unmoved::NoTerm)?;
    if cells.len() > space.len() {
        return Err(Unmoved::NoRoom);
    }
    Ok(rename(term, how, space))
}

// The term with a value put for one of its free variables, at the front of the space. Answers its count.
fn put_value(
    cells: &[u64],
    value: &[u64],
    how: Substitution,
    space: &mut [u64],
) -> Result<usize, Unmoved>
    requires { Puts how value.now }
    ensures { MovedWith (put how.entry) cells.now value.now space.old space.new result }
{
    let term = one_term(cells).ok_or(Unmoved::NoTerm)?;
    let _value = one_term(value).ok_or(Unmoved::NoValue)?;
    substitution::substitute(term, how, space).ok_or(Unmoved::NoRoom)
}

// The free numbers raised.
pub fn raise(cells: &[u64], by: u32, space: &mut [u64]) -> Result<usize, Unmoved>
    ensures { Moved (raise by) cells.now space.old space.new result }
{
    rename_term(cells, Renaming::Raise(by as u64), space)
}

// The free numbers lowered by one: a binder less. Meant where the free variable 0 is not in the term.
pub fn lower(cells: &[u64], space: &mut [u64]) -> Result<usize, Unmoved>
    ensures { Moved down cells.now space.old space.new result }
{
    rename_term(cells, Renaming::Lower, space)
}

// The value for the free variable number x, and every other variable for itself.
pub fn substitute(cells: &[u64], x: u32, value: &[u64], space: &mut [u64]) -> Result<usize, Unmoved>
    ensures { MovedWith (λ v t. replace v x t) cells.now value.now space.old space.new result }
{
    let how = Substitution::replace(x as u64, value);
    put_value(cells, value, how, space)
}

// The value for the variable of the nearest binder, which goes.
pub fn instantiate(cells: &[u64], value: &[u64], space: &mut [u64]) -> Result<usize, Unmoved>
    ensures { MovedWith instantiate cells.now value.now space.old space.new result }
{
    let how = Substitution::instead(value);
    put_value(cells, value, how, space)
}

#[cfg(test)]
mod tests {
    use super::*;

    // A binder with one child, and a cell with two children and no binder.
    const LAMBDA: u64 = 0x1201_0000_0000_0000;

    const PAIR: u64 = 0x0802_0000_0000_0000;

    #[test]
    fn raises_under_a_binder(rt: HostRuntime) {
        let mut space = [9; 6];
        assert_eq!(rt; raise(&[LAMBDA, PAIR, 0, 3], 2, &mut space), Ok(4));
        assert_eq!(rt; space, [LAMBDA, PAIR, 0, 5, 9, 9]);
    }

    #[test]
    fn lowers_under_a_binder(rt: HostRuntime) {
        let mut space = [9; 5];
        assert_eq!(rt; lower(&[LAMBDA, PAIR, 0, 3], &mut space), Ok(4));
        assert_eq!(rt; space, [LAMBDA, PAIR, 0, 2, 9]);
    }

    #[test]
    fn raises_the_value_under_a_binder(rt: HostRuntime) {
        let mut space = [9; 6];
        assert_eq!(rt;
            substitute(&[LAMBDA, PAIR, 0, 2], 1, &[PAIR, 0, 7], &mut space),
            Ok(6)
        );
        assert_eq!(rt; space, [LAMBDA, PAIR, 0, PAIR, 1, 8]);
    }

    #[test]
    fn instantiates_the_nearest_binder(rt: HostRuntime) {
        let mut space = [9; 5];
        assert_eq!(rt; instantiate(&[PAIR, 0, 3], &[LAMBDA, 1], &mut space), Ok(4));
        assert_eq!(rt; space, [PAIR, LAMBDA, 1, 2, 9]);
    }

    #[test]
    fn leaves_a_small_space(rt: HostRuntime) {
        let mut space = [9; 5];
        assert_eq!(rt;
            substitute(&[LAMBDA, PAIR, 0, 2], 1, &[PAIR, 0, 7], &mut space),
            Err(Unmoved::NoRoom)
        );
        assert_eq!(rt; space, [9; 5]);
    }

    #[test]
    fn wants_one_term(rt: HostRuntime) {
        let mut space = [9; 5];
        assert_eq!(rt; raise(&[PAIR, 0], 1, &mut space), Err(Unmoved::NoTerm));
        assert_eq!(rt; lower(&[0, 1], &mut space), Err(Unmoved::NoTerm));
        assert_eq!(rt;
            instantiate(&[0], &[PAIR, 0], &mut space),
            Err(Unmoved::NoValue)
        );
        assert_eq!(rt; space, [9; 5]);
    }
}
