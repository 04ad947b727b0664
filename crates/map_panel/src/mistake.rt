// Mistakes in a line: what is missing, wrong or too many.
// The smaller panel names its fields alike; a crate of words for both would be longer than what it saved.
use std::fmt;

/// A field of a command.
#[derive(Clone, Copy)]
pub enum Field {
    Code,
    End,
    Berth,
    From,
    To,
    Vessel,
    Due,
    Minute,
    Number,
    Places,
    Slot,
    Used,
    Len,
    Head,
    Count,
}

impl Field {
    fn largest(self) -> u64 {
        match self {
            Field::Berth => u64::from(u16::MAX),
            Field::Vessel => u64::MAX,
            _ => u64::from(u32::MAX),
        }
    }
}

impl fmt::Display for Field {
    fn fmt<W: fmt::Write>(&self, f: &mut fmt::Formatter<W>) -> fmt::Result {
        f.write_str(match self {
            Field::Code => "CODE",
            Field::End => "END",
            Field::Berth => "BERTH",
            Field::From => "FROM",
            Field::To => "TO",
            Field::Vessel => "VESSEL",
            Field::Due => "DUE",
            Field::Minute => "MINUTE",
            Field::Number => "NUMBER",
            Field::Places => "PLACES",
            Field::Slot => "SLOT",
            Field::Used => "USED",
            Field::Len => "LEN",
            Field::Head => "HEAD",
            Field::Count => "COUNT",
        })
    }
}

/// Why a line is no command.
#[derive(Clone, Copy)]
pub enum Mistake<'a> {
    NotText,
    /// The first word is no command of a board.
    UnknownWord(&'a str),
    /// After the first word no board is named, but the second word, if there is one.
    NoBoard(&'a str, Option<&'a str>),
    /// This is neither end of a board.
    UnknownEnd(&'a str),
    Missing(Field),
    NotANumber(Field, &'a str),
    TooMany(&'a str),
}

impl<'a> fmt::Display for Mistake<'a> {
    fn fmt<W: fmt::Write>(&self, f: &mut fmt::Formatter<W>) -> fmt::Result {
        match *self {
            Mistake::NotText => write!(f, "it is not text"),
            Mistake::UnknownWord(word) => write!(f, "no command begins with '{word}'"),
            Mistake::NoBoard(word, None) => {
                write!(f, "after '{word}' no board is named, stay or sailing")
            }
            Mistake::NoBoard(word, Some(then)) => {
                write!(f, "after '{word}' comes '{then}', and not stay or sailing")
            }
            Mistake::UnknownEnd(word) => {
                write!(f, "{} is '{word}', and not first or last", Field::End)
            }
            Mistake::Missing(field) => write!(f, "{field} is missing"),
            Mistake::NotANumber(field, word) => {
                let largest = field.largest();
                write!(
                    f,
                    "{field} is '{word}', and not a number from 0 to {largest}"
                )
            }
            Mistake::TooMany(word) => write!(f, "'{word}' is one word too many"),
        }
    }
}
