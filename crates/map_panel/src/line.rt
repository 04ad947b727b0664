// Reading the words of a line: numbers, keys and items.
// The smaller panel reads its words alike; a crate of words for both would be longer than what it saved.
use crate::mistake::{Field, Mistake};
use panel_items::{CodeText, CodeTextRefusal, Sailing, Stay, StayAt};
use std::fmt;
use std::str::{FromStr, SplitWhitespace};

/// Why a line gives no command.
#[derive(Clone, Copy)]
pub enum LineFault<'a> {
    NotACommand(Mistake<'a>),
    /// LONG, number 9: this code has more than eight letters.
    Long(CodeTextRefusal, &'a str),
}

impl<'a> From<Mistake<'a>> for LineFault<'a> {
    fn from(mistake: Mistake<'a>) -> LineFault<'a> {
        LineFault::NotACommand(mistake)
    }
}

impl<'a> fmt::Display for LineFault<'a> {
    fn fmt<W: fmt::Write>(&self, f: &mut fmt::Formatter<W>) -> fmt::Result {
        match *self {
            LineFault::NotACommand(mistake) => write!(f, "not a command: {mistake}"),
            LineFault::Long(refusal, word) => write!(
                f,
                "refused {} LONG: {} is '{word}', over eight letters",
                refusal.number(),
                Field::Code
            ),
        }
    }
}

/// The next word of a line, which is to be this field.
pub fn read_word<'a>(
    words: &mut SplitWhitespace<'a>,
    field: Field,
) -> Result<&'a str, Mistake<'a>> {
    words.next().ok_or(Mistake::Missing(field))
}

/// A word as a number.
pub fn parse_number<'a, N: FromStr>(field: Field, word: &'a str) -> Result<N, Mistake<'a>>
where
    N::Err: Drop,
{
    word.parse().map_err(|_| Mistake::NotANumber(field, word))
}

/// The next word of a line, as a number.
pub fn read_number<'a, N: FromStr>(
    words: &mut SplitWhitespace<'a>,
    field: Field,
) -> Result<N, Mistake<'a>>
where
    N::Err: Drop,
{
    parse_number(field, read_word(words, field)?)
}

/// What can be read from the next words of a line.
pub trait FromWords<'a>: Sized {
    fn from_words(words: &mut SplitWhitespace<'a>) -> Result<Self, LineFault<'a>>;
}

impl<'a> FromWords<'a> for Stay {
    fn from_words(words: &mut SplitWhitespace<'a>) -> Result<Stay, LineFault<'a>> {
        Ok(Stay {
            berth: read_number(words, Field::Berth)?,
            from: read_number(words, Field::From)?,
            to: read_number(words, Field::To)?,
            vessel: read_number(words, Field::Vessel)?,
        })
    }
}

impl<'a> FromWords<'a> for StayAt {
    fn from_words(words: &mut SplitWhitespace<'a>) -> Result<StayAt, LineFault<'a>> {
        Ok(StayAt {
            berth: read_number(words, Field::Berth)?,
            from: read_number(words, Field::From)?,
        })
    }
}

impl<'a> FromWords<'a> for CodeText<'a> {
    fn from_words(words: &mut SplitWhitespace<'a>) -> Result<CodeText<'a>, LineFault<'a>> {
        let word = read_word(words, Field::Code)?;
        let mut code = CodeText::new();
        code.fill(word.as_bytes())
            .map_err(|refusal| LineFault::Long(refusal, word))?;
        Ok(code)
    }
}

impl<'a> FromWords<'a> for Sailing {
    fn from_words(words: &mut SplitWhitespace<'a>) -> Result<Sailing, LineFault<'a>> {
        let code = CodeText::from_words(words)?;
        Ok(Sailing {
            code: code.code(),
            berth: read_number(words, Field::Berth)?,
            due: read_number(words, Field::Due)?,
        })
    }
}
