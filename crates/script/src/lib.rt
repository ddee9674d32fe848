// What a line of a script for the player is, without input or output: from a line's bytes to its kind and its numbers,
// and from a number to its digits. docs/PLAYER.md has the lines.
#![tactic(auto)]

mod number;
mod words;

pub use number::{MOST_DIGITS, decimal, number_of};
pub use words::squeeze;
use words::{is_blank, request_end};

// A line of a script.
#[derive(Clone, Copy)]
pub enum Line {
    // No request: nothing but blanks, or a comment.
    Blank,
    Arena(u64),
    TableShort,
    TableWhole,
    Start,
    Take(u64),
    Give(u64),
    Which(u64),
    Figures,
    CheckUp,
    Flip { cell: u64, bit: u64 },
    Cost,
}

// What a line is, or None where it is no line of a script. The bytes are those of the line, without the newline that ends it.
pub fn parse(line: &[u8]) -> Option<Line> {
    let request = &line[..request_end(line)];
    let mut words = request
        .split(|b| is_blank(*b))
        .filter(|word| !word.is_empty());
    let Some(first) = words.next() else {
        return Some(Line::Blank);
    };
    let parsed = match first {
        b"take" => Line::Take(number_of(words.next()?)?),
        b"give" => Line::Give(number_of(words.next()?)?),
        b"which" => Line::Which(number_of(words.next()?)?),
        b"figures" => Line::Figures,
        b"start" => Line::Start,
        b"checkup" => Line::CheckUp,
        b"arena" => Line::Arena(number_of(words.next()?)?),
        b"table" => table(words.next()?)?,
        b"flip" => Line::Flip {
            cell: number_of(words.next()?)?,
            bit: number_of(words.next()?)?,
        },
        b"cost" => Line::Cost,
        _ => return None,
    };
    match words.next() {
        None => Some(parsed),
        Some(_) => None,
    }
}

// The line `table short` or `table whole`, by its second word.
fn table(how: &[u8]) -> Option<Line> {
    match how {
        b"short" => Some(Line::TableShort),
        b"whole" => Some(Line::TableWhole),
        _ => None,
    }
}
