// The kinds of the cells of let-rewriting.

// A kind, by the number that the cells have for it.
#[derive(Clone, Copy, PartialEq, Eq, Debug)]
pub enum Kind {
    Variable = 0,
    Constructor = 32,
    Function = 33,
    Marked = 34,
    Let = 35,
    Rule = 36,
}
