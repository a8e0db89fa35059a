// The questions about a whole term. (A list of records may be longer than enough, so these take a slice and ask for its length; an array would ask for just
// so many.)
ghost use Rattle.std.specs.Prelude.{◌≤◌, length};
ghost use Rattle.runs.specs.Asked.{Asked, layout_question, term_questions, held_question};

use crate::refusal::Refusal;
use calculus::Calculus;
use layout::{Walk, layout};

// 4: do the cells keep the layout?
pub fn kept(cells: &[u64], walk: &mut [Walk]) -> Result<(), Refusal>
    requires { 256 ≤ length walk.old }
    ensures { Asked (layout_question cells.now) result }
{
    layout(cells, walk)?;
    Ok(())
}

// 4 and 5: do they keep the layout, and are they lawful?
pub fn judged<C: Calculus>(calculus: &C, cells: &[u64], walk: &mut [Walk]) -> Result<(), Refusal>
    requires { 256 ≤ length walk.old }
    ensures { Asked (term_questions (C.Calculus.meaning calculus.now) cells.now) result }
{
    kept(cells, walk)?;
    calculus.judge(cells).map_err(Refusal::Unlawful)?;
    Ok(())
}

// 7: are they a lawful term that keeps the layout, whoever has changed them since?
pub fn held<C: Calculus>(calculus: &C, cells: &[u64], walk: &mut [Walk]) -> Result<(), Refusal>
    requires { 256 ≤ length walk.old }
    ensures { Asked (held_question (C.Calculus.meaning calculus.now) cells.now) result }
{
    judged(calculus, cells, walk).map_err(|_| Refusal::Tampered)
}
