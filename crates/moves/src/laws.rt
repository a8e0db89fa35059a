// The laws of the moves.
ghost use Rattle.moves.specs.Laws.{MovesKeep};

// What renaming and substitution keep.
pub fn moves_keep() -> bool
    ensures { MovesKeep }
{
    true
}
