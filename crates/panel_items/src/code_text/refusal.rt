// Why a text was refused as a code.
ghost use Rattle.std.specs.Prelude.{◌≡◌};
ghost use Rattle.panel_items.specs.CodeTextRefusal.{refusal_number};

/// Why a text was refused as a code: LONG, refusal number 9, says that it has more than eight letters.
#[derive(Clone, Copy, PartialEq, Eq, Debug)]
pub enum CodeTextRefusal {
    Long,
}

impl CodeTextRefusal {
    // The refusals of all libraries are numbered in one row.
    /// The number that stands for the refusal: 9 for LONG.
    pub fn number(self) -> u8
        ensures { result ≡ refusal_number self }
    {
        match self {
            CodeTextRefusal::Long => 9,
        }
    }
}
