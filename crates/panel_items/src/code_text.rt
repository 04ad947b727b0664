// The letters of a sailing's code as typed, of which there are never more than eight.
ghost use Rattle.std.specs.Prelude.{◌≤◌, length};

mod methods;
mod query;
mod refusal;

pub use refusal::CodeTextRefusal;

/// Looks for the sailing whose code is a text, by the letters as typed, which it borrows.
///
/// It never holds more than eight letters, so it always means a code.
#[derive(Clone, Copy, PartialEq, Eq, Debug)]
pub struct CodeText<'a> {
    letters: &'a [u8],
    ghost short: { length letters.now ≤ 8 },
}
