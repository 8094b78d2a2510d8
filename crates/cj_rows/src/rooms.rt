//! The room for a fresh Assume or Anchor.

ghost use Rattle.std.specs.Prelude.{◌≡◌};
ghost use Rattle.cj_rows.specs.Rooms.{room_offence};

use cj_draft::limits::{MAX_CODE_LABELS, MAX_ROW};
use cj_draft::{Room, Skipped};

/// Why there is no room for a fresh Assume or Anchor in a row of that many with it, in a draft of that many labels with
/// its own: too many would follow each other (`MAX_ROW`), or else the draft would have too many labels (`MAX_CODE_LABELS`).
/// `None`: there is room.
#[tactic(auto, unfolding(crate::specs::Rooms::room_offence, crate::specs::Rooms::if_full))]
pub fn room_offence(row: u32, labels: u32) -> Option<Skipped>
    ensures { result ≡ room_offence row labels }
{
    if row > MAX_ROW {
        return Some(Skipped::Full {
            room: Room::Row,
            count: row,
        });
    }
    if labels > MAX_CODE_LABELS {
        return Some(Skipped::Full {
            room: Room::Labels,
            count: labels,
        });
    }
    None
}
