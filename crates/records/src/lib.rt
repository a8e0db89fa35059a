// Steps in bytes: rule 6 bits, place length 9, inner length 9, argument 8, then one byte an entry.
#![tactic(auto)]

ghost use Rattle.std.specs.Prelude.{drop};
ghost use Rattle.records.specs.Reading.{StepRead, StepsMeasured};

use runs::step::Step;

// The step at the front of the bytes, and the bytes behind it; none where they end before it does.
pub fn first_step(bytes: &[u8]) -> Option<(Step<'_>, &[u8])>
    ensures { StepRead bytes.now result }
{
    let (head, entries) = bytes.split_first_chunk()?;
    let head = u32::from_be_bytes(*head);
    let (place, others) = entries.split_at_checked(((head >> 17) % 512) as usize)?;
    let (inner, rest) = others.split_at_checked(((head >> 8) % 512) as usize)?;
    let step = Step {
        rule: (head >> 26) as u8,
        place,
        argument: (head % 256) as u8,
        inner,
    };
    Some((step, rest))
}

// The same from a place in the bytes on.
pub fn read_step(bytes: &[u8], at: usize) -> Option<(Step<'_>, &[u8])>
    ensures { StepRead (drop at bytes.now) result }
{
    first_step(bytes.get(at..).unwrap_or(&[]))
}

// The first byte lacking or left over where the bytes are to hold exactly so many steps; none where they do.
pub fn steps_amiss(bytes: &[u8], count: usize) -> Option<usize>
    ensures { StepsMeasured count bytes.now result }
{
    let mut rest = bytes;
    for _ in 0..count {
        match first_step(rest) {
            Some((_, behind)) => rest = behind,
            None => return Some(bytes.len()),
        }
    }
    if rest.is_empty() {
        None
    } else {
        Some(bytes.len() - rest.len())
    }
}
