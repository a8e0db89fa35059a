// A ticket: every one ends in one settlement or one withdrawal. A spent ticket has the number 0.
ghost use Rattle.std.specs.Prelude.{◌≡◌};

pub struct Ticket {
    pub(crate) number: u16,
}

impl Drop for Ticket {
    fn drop(self)
        requires { self.number ≡ 0 }
    {
        let Ticket { number: _ } = self;
    }
}

impl Ticket {
    // Spends the ticket, and tells its number.
    pub(crate) fn spend(self) -> u16
        ensures { result ≡ self.number }
    {
        let Ticket { number } = self;
        number
    }
}
