// Parts of lists.
ghost use Rattle.std.specs.Prelude.{◌≡◌, [], slice_range};
ghost use Rattle.script.specs.Part.{LiesIn};

// A part of a list, from its start to before its end.
#[derive(Clone, Copy, PartialEq, Eq, Debug)]
pub struct Part {
    pub start: usize,
    pub end: usize,
}

impl Part {
    // The part, or nothing where it does not lie in the list.
    pub fn of<T>(self, all: &[T]) -> &[T]
        ensures within { LiesIn self all.now → result.now ≡ slice_range all.now self.start self.end }
        ensures beyond { ¬ LiesIn self all.now → result.now ≡ [] }
    {
        all.get(self.start..self.end).unwrap_or(&[])
    }
}
