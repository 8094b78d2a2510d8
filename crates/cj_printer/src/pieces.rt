//! Tokens that are appended to a text.

ghost use Rattle.std.specs.Prelude.{◌≡◌, ◌++◌, OnOk};
ghost use Rattle.cj_printer.specs.Pieces.{gap_text};

use cj_ir::NoMemory;

/// What stands before a token.
#[derive(Clone, Copy, Debug, PartialEq, Eq)]
pub enum Gap {
    /// Nothing.
    Glued,
    /// One blank.
    Blank,
    /// A line feed.
    Feed,
}

/// Appends a token behind its gap.
pub fn push_piece(text: &mut Vec<u8>, gap: Gap, token: &[u8]) -> Result<(), NoMemory>
    ensures { OnOk result (text.new.items ≡ text.old.items ++ (gap_text gap ++ token.now)) }
{
    let gap: &[u8] = match gap {
        Gap::Glued => b"",
        Gap::Blank => b" ",
        Gap::Feed => b"\n",
    };
    text.extend_from_slice(gap)?;
    text.extend_from_slice(token)?;
    Ok(())
}
