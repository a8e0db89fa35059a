// The calculi that a script can name.
ghost use Rattle.script.specs.Calculus.{Names};

use crate::fault::Bad;

// The calculus whose steps a script asks for. The number is the one that stands in the script.
#[derive(Clone, Copy, PartialEq, Eq, Debug)]
pub enum Calculus {
    LetRewriting = 2,
}

impl TryFrom<u8> for Calculus {
    type Error = Bad;

    ghost try_from_gives = { Names };

    fn try_from(number: u8) -> Result<Calculus, Bad> {
        match number {
            2 => Ok(Calculus::LetRewriting),
            _ => Err(Bad::Text),
        }
    }
}
