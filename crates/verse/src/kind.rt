// The kinds of cells.
ghost use Rattle.verse.specs.Kind.{Decodes};

// The kind of a cell, as its kind field has it.
#[derive(Clone, Copy, Debug, PartialEq, Eq, Hash)]
pub enum Kind {
    Variable = 0,
    Integer = 1,
    Operator = 2,
    Tuple = 3,
    Lambda = 4,
    Application = 5,
    Sequence = 6,
    Equation = 7,
    Exists = 8,
    Fail = 9,
    Choice = 10,
    One = 11,
    All = 12,
}

// A number that is no kind's.
#[derive(Clone, Copy, Debug, PartialEq, Eq, Hash)]
pub struct UnknownKind(pub u8);

impl TryFrom<u8> for Kind {
    type Error = UnknownKind;

    ghost try_from_gives = { Decodes };

    fn try_from(number: u8) -> Result<Self, UnknownKind> {
        Ok(match number {
            0 => Kind::Variable,
            1 => Kind::Integer,
            2 => Kind::Operator,
            3 => Kind::Tuple,
            4 => Kind::Lambda,
            5 => Kind::Application,
            6 => Kind::Sequence,
            7 => Kind::Equation,
            8 => Kind::Exists,
            9 => Kind::Fail,
            10 => Kind::Choice,
            11 => Kind::One,
            12 => Kind::All,
            _ => return Err(UnknownKind(number)),
        })
    }
}
