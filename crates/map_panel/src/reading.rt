// Reading a command from a line.
use crate::changing::Change;
use crate::command::{Command, Order};
use crate::handling::Handling;
use crate::line::{FromWords, LineFault, parse_number, read_number, read_word};
use crate::looking::Look;
use crate::mistake::{Field, Mistake};
use crate::upkeep::Upkeep;
use id_ord_item::KeepFirst;
use item_set::{ItemIndex, ItemSet};
use panel_items::EndedBy;
use std::str::{SplitWhitespace, from_utf8};

/// Reads which end is to be popped.
fn read_end<'a, T, Q>(words: &mut SplitWhitespace<'a>) -> Result<Change<T, Q>, Mistake<'a>> {
    match read_word(words, Field::End)? {
        "first" => Ok(Change::PopFirst),
        "last" => Ok(Change::PopLast),
        word => Err(Mistake::UnknownEnd(word)),
    }
}

/// Reads how many places of the scratch are to be used, if any number is named.
fn read_places<'a>(words: &mut SplitWhitespace<'a>) -> Result<Option<u32>, Mistake<'a>> {
    words
        .next()
        .map(|word| parse_number(Field::Places, word))
        .transpose()
}

/// Reads a free head, which may be none.
fn read_head<'a>(words: &mut SplitWhitespace<'a>) -> Result<ItemIndex, Mistake<'a>> {
    match read_word(words, Field::Head)? {
        "none" => Ok(ItemIndex::SENTINEL),
        word => Ok(ItemIndex::new(parse_number(Field::Head, word)?)),
    }
}

/// Reads which numbers are to be adopted: the saved ones where none are named.
fn read_adoption<'a>(words: &mut SplitWhitespace<'a>) -> Result<Upkeep, Mistake<'a>> {
    let Some(word) = words.next() else {
        return Ok(Upkeep::Restore);
    };
    let numbers = ItemSet {
        used: parse_number(Field::Used, word)?,
        len: read_number(words, Field::Len)?,
        free_head: read_head(words)?,
    };
    Ok(Upkeep::Adopt(numbers, read_number(words, Field::Count)?))
}

/// Reads what is asked of a board, from the first word and the words after the board's name.
fn read_order<'a, T: FromWords<'a>, Q: FromWords<'a>>(
    word: &'a str,
    words: &mut SplitWhitespace<'a>,
) -> Result<Order<T, Q>, LineFault<'a>> {
    Ok(match word {
        "get" => Order::Look(Look::Get(Q::from_words(words)?)),
        "first" => Order::Look(Look::First),
        "last" => Order::Look(Look::Last),
        "len" => Order::Look(Look::Len),
        "check" => Order::Look(Look::Check),
        "list" => Order::List,
        "add" => Order::Change(Change::Add(T::from_words(words)?)),
        "overwrite" => Order::Change(Change::Overwrite(T::from_words(words)?)),
        "drop" => Order::Change(Change::Drop(Q::from_words(words)?)),
        "pop" => Order::Change(read_end(words)?),
        "clear" => Order::Change(Change::Clear),
        "keep" => Order::Keep(KeepFirst {
            left: read_number(words, Field::Number)?,
        }),
        "take" => Order::Hand(Handling::Take(Q::from_words(words)?)),
        "change" => Order::Hand(Handling::Change(T::from_words(words)?)),
        "put" => Order::Hand(Handling::PutBack),
        "entry" => Order::Hand(Handling::Entry(Q::from_words(words)?)),
        "enter" => Order::Hand(Handling::Enter(T::from_words(words)?)),
        "insert" => Order::Hand(Handling::Insert(T::from_words(words)?)),
        "remove" => Order::Hand(Handling::Remove),
        "shrink" => Order::Upkeep(Upkeep::Shrink(read_places(words)?)),
        "remap" => Order::Upkeep(Upkeep::Remap(ItemIndex::new(read_number(words, Field::Slot)?))),
        "save" => Order::Upkeep(Upkeep::Save),
        "adopt" => Order::Upkeep(read_adoption(words)?),
        _ => return Err(Mistake::UnknownWord(word).into()),
    })
}

/// Reads the words after the first.
fn read_rest<'a>(
    word: &'a str,
    words: &mut SplitWhitespace<'a>,
) -> Result<Command<'a>, LineFault<'a>> {
    if word == "ended" {
        let minute = read_number(words, Field::Minute)?;
        return Ok(Command::Ended(EndedBy { minute }));
    }
    match words.next() {
        Some("stay") => Ok(Command::Stays(read_order(word, words)?)),
        Some("sailing") => Ok(Command::Sailings(read_order(word, words)?)),
        then => Err(Mistake::NoBoard(word, then).into()),
    }
}

/// The command in a line: none where the line is empty or begins with `#`.
pub fn read_line<'a>(line: &'a [u8]) -> Result<Option<Command<'a>>, LineFault<'a>> {
    let text = from_utf8(line).map_err(|_| Mistake::NotText)?;
    let mut words = text.split_whitespace();
    let Some(word) = words.next().filter(|word| !word.starts_with('#')) else {
        return Ok(None);
    };
    let command = read_rest(word, &mut words)?;
    match words.next() {
        None => Ok(Some(command)),
        Some(extra) => Err(Mistake::TooMany(extra).into()),
    }
}
