// Reading a change from a line.
// The larger panel reads its fields alike; a crate of words for both would be longer than what it saved.
use panel_items::{Stay, StayAt};
use std::fmt;
use std::str::{FromStr, SplitWhitespace, from_utf8};

// A change is read whole before anything is done, so it is a value and no function.
/// A change at the berths.
#[derive(Clone, Copy)]
pub enum Change {
    Add(Stay),
    Drop(StayAt),
}

/// A field of a change.
#[derive(Clone, Copy)]
pub enum Field {
    Berth,
    From,
    To,
    Vessel,
}

impl Field {
    fn largest(self) -> u64 {
        match self {
            Field::Berth => u64::from(u16::MAX),
            Field::From | Field::To => u64::from(u32::MAX),
            Field::Vessel => u64::MAX,
        }
    }
}

impl fmt::Display for Field {
    fn fmt<W: fmt::Write>(&self, f: &mut fmt::Formatter<W>) -> fmt::Result {
        match self {
            Field::Berth => write!(f, "BERTH"),
            Field::From => write!(f, "FROM"),
            Field::To => write!(f, "TO"),
            Field::Vessel => write!(f, "VESSEL"),
        }
    }
}

/// Why a line is not a change.
#[derive(Clone, Copy)]
pub enum LineFault<'a> {
    NotText,
    UnknownWord(&'a str),
    Missing(Field),
    NotANumber(Field, &'a str),
    TooMany(&'a str),
}

impl<'a> fmt::Display for LineFault<'a> {
    fn fmt<W: fmt::Write>(&self, f: &mut fmt::Formatter<W>) -> fmt::Result {
        match *self {
            LineFault::NotText => write!(f, "it is not text"),
            LineFault::UnknownWord(word) => {
                write!(
                    f,
                    "it begins with '{word}', and a change begins with add or drop"
                )
            }
            LineFault::Missing(field) => write!(f, "{field} is missing"),
            LineFault::NotANumber(field, word) => {
                let largest = field.largest();
                write!(
                    f,
                    "{field} is '{word}', and not a number from 0 to {largest}"
                )
            }
            LineFault::TooMany(word) => write!(f, "'{word}' is one word too many"),
        }
    }
}

/// The next word of a line, as a number.
fn number<'a, N: FromStr>(words: &mut SplitWhitespace<'a>, field: Field) -> Result<N, LineFault<'a>>
where
    N::Err: Drop,
{
    let word = words.next().ok_or(LineFault::Missing(field))?;
    word.parse().map_err(|_| LineFault::NotANumber(field, word))
}

fn read_stay<'a>(words: &mut SplitWhitespace<'a>) -> Result<Stay, LineFault<'a>> {
    Ok(Stay {
        berth: number(words, Field::Berth)?,
        from: number(words, Field::From)?,
        to: number(words, Field::To)?,
        vessel: number(words, Field::Vessel)?,
    })
}

fn read_stay_at<'a>(words: &mut SplitWhitespace<'a>) -> Result<StayAt, LineFault<'a>> {
    Ok(StayAt {
        berth: number(words, Field::Berth)?,
        from: number(words, Field::From)?,
    })
}

/// The change that a line tells, if it tells one: none where it is empty or begins with `#`.
pub fn read_line<'a>(line: &'a [u8]) -> Result<Option<Change>, LineFault<'a>> {
    let text = from_utf8(line).map_err(|_| LineFault::NotText)?;
    let mut words = text.split_whitespace();
    let Some(word) = words.next().filter(|word| !word.starts_with('#')) else {
        return Ok(None);
    };
    let change = match word {
        "add" => Change::Add(read_stay(&mut words)?),
        "drop" => Change::Drop(read_stay_at(&mut words)?),
        _ => return Err(LineFault::UnknownWord(word)),
    };
    match words.next() {
        None => Ok(Some(change)),
        Some(extra) => Err(LineFault::TooMany(extra)),
    }
}
