// Why a calculus gives no term, or cannot write it.
ghost use Rattle.std.specs.Prelude.{◌≡◌};
ghost use Rattle.calculus.specs.Answers.{number_of};

// No such rule; an argument or inner place that is not used so; not the left side's form; the words after "if" or
// "unless" fail; the sum is no 32-bit signed integer; more cells than the space.
#[derive(Clone, Copy, PartialEq, Eq, Debug)]
pub enum No {
    NoRule = 10,
    Unfit = 11,
    Formless = 12,
    Barred = 13,
    Oversum = 14,
    Overlong = 15,
}

impl No {
    // The number of the question that says no.
    pub fn number(self) -> u8
        ensures { result ≡ number_of self }
    {
        self as u8
    }
}
