//! Places that are like others but for one part, and lists of places from the end on.

ghost use Rattle.std.specs.Prelude.{◌≡◌, IfOk, reverse};
ghost use Rattle.cj_rows.specs.Places.{with_instr};

use cj_draft::{Place, Places, VInstr};
use cj_ir::{Duplicate, NoMemory};

/// A place like this one with another instruction.
#[tactic(auto, unfolding(crate::specs::Places::with_instr))]
pub fn with_instr(place: &Place, instr: VInstr) -> Result<Place, NoMemory>
    ensures { IfOk result (λ made. made ≡ with_instr instr place.now) }
{
    let point = place.point.copy()?;
    let facts = place.facts.copy()?;
    let backs = place.backs.copy()?;
    Ok(Place {
        instr,
        point,
        facts,
        backs,
    })
}

/// The places from the last one to the first.
pub fn reversed(mut places: Places) -> Result<Places, NoMemory>
    ensures { IfOk result (λ turned. turned ≡ reverse places) }
{
    let mut turned = Places::new(places.allocator());
    while let Some(place) = places.pop() {
        turned.push(place)?;
    }
    Ok(turned)
}
