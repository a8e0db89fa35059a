// What the words of a line write.
ghost use Rattle.std.specs.Result.{OkIff};
ghost use Rattle.script.specs.Words.{IsNumber, number_of, IsCell, cell_of, ReadsCells, ReadsPlace};

use crate::fault::Bad;
use crate::part::Part;

// A number of at most so much.
pub fn number(word: &str, most: usize) -> Result<usize, Bad>
    ensures { OkIff result (IsNumber most word.now) (number_of word.now) }
{
    match word.parse::<usize>() {
        Ok(n) if n <= most => Ok(n),
        _ => Err(Bad::Text),
    }
}

// A cell in 16 hexadecimal digits.
pub fn cell(word: &str) -> Result<u64, Bad>
    ensures { OkIff result (IsCell word.now) (cell_of word.now) }
{
    if word.len() != 16 || word.starts_with('+') {
        return Err(Bad::Text);
    }
    Ok(u64::from_str_radix(word, 16)?)
}

// A cell for each word, behind the cells so far.
pub fn cells(words: &[&str], cells: &mut Vec<u64>) -> Result<Part, Bad>
    ensures { ReadsCells words.now cells.old.items cells.new.items result }
{
    let start = cells.len();
    for word in words {
        cells.push(cell(word)?)?;
    }
    Ok(Part {
        start,
        end: cells.len(),
    })
}

// A place, behind the entries so far: `-`, or entries with a dot between them.
pub fn place(word: &str, entries: &mut Vec<u8>) -> Result<Part, Bad>
    ensures { ReadsPlace word.now entries.old.items entries.new.items result }
{
    let start = entries.len();
    if word == "-" {
        return Ok(Part { start, end: start });
    }
    for entry in word.split('.') {
        entries.push(entry.parse::<u8>()?)?;
    }
    Ok(Part {
        start,
        end: entries.len(),
    })
}
