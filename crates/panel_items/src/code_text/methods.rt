// What a text of a code does: it is filled with letters, and means a code.
ghost use Rattle.std.specs.Prelude.{◌≡◌, []};
ghost use Rattle.panel_items.specs.Code.{code_of, padded};
ghost use Rattle.panel_items.specs.CodeOrder.{CodesInTextOrder};
ghost use Rattle.panel_items.specs.CodeText.{letters_of, fill_answer, letters_after_fill};

use super::{CodeText, CodeTextRefusal};

impl<'a> CodeText<'a> {
    // A text is made empty and then filled, so that a refusal leaves it as it was.
    /// A text with no letters, which means the code 0.
    pub fn new() -> CodeText<'a>
        ensures { letters_of result ≡ [] }
    {
        CodeText { letters: &[] }
    }

    /// Fills the text with letters, in place of those that it held.
    ///
    /// More than eight letters are refused as LONG, refusal number 9, and the text is left as it was.
    pub fn fill(&mut self, letters: &'a [u8]) -> Result<(), CodeTextRefusal>
        ensures answer { result ≡ fill_answer letters.now }
        ensures after { letters_of self.new ≡ letters_after_fill (letters_of self.old) letters.now }
    {
        if letters.len() > 8 {
            return Err(CodeTextRefusal::Long);
        }
        self.letters = letters;
        Ok(())
    }

    /// The code that the letters mean: eight bytes as one number, the first letter highest, with zeros after a short text.
    ///
    /// The codes of texts whose letters are all above 0 are in the order of the texts.
    #[tactic(auto, using(crate::proofs::EightDigits::eight_digits, crate::proofs::CodeOrder::codes_in_text_order))]
    pub fn code(&self) -> u64
        ensures value { result ≡ code_of (letters_of self.now) }
        ensures order { CodesInTextOrder }
    {
        u64::from_be_bytes(self.bytes())
    }

    // The letters, and zeros after them up to eight.
    fn bytes(&self) -> [u8; 8]
        ensures { result ≡ padded (letters_of self.now) }
    {
        let mut bytes = [0; 8];
        bytes[..self.letters.len()].copy_from_slice(self.letters);
        bytes
    }
}
