// A guard that leaves zeros behind.
ghost use Rattle.std.specs.Prelude.{◌≡◌, length, replicate};

pub struct Clean<'a> {
    pub cells: &'a mut [u64],
}

impl Drop for Clean<'_> {
    fn drop(self)
        ensures { self.exit.0.now ≡ replicate (length self.entry.cells.now) 0 }
    {
        self.cells.fill(0);
        let Clean { cells: _ } = self;
    }
}
