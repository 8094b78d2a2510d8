//! Anchors before labels.

ghost use Rattle.std.specs.Prelude.{◌≡◌, ◌<◌, ◌≤◌, IfOk, length, map};
ghost use Rattle.cj_draft.specs.Edges.{led_to};
ghost use Rattle.cj_rows.specs.Edges.{led_place, IsClosed};
ghost use Rattle.cj_rows.specs.Tables.{IsTable, given};
ghost use Rattle.cj_anchor.specs.AnchorInsertion.{anchor_offence, IsAnchored, AreAnchored};
ghost use Rattle.cj_anchor.specs.OneAnchor.{IsAnchorStep, IsAnchorPlace};
ghost use Rattle.cj_draft.specs.declared.limits.TheConstants.{MAX_CODE_LABELS};

use cj_draft::{Code, Draft, Place, Places, Skipped, Skips, VInstr, led_to, told};
use cj_ir::{Duplicate, Label, Labels, NoMemory};
use cj_rows::{fresh_row, given, led_place, reversed, room_offence, with_pair};
use std::alloc::Global;

/// An Anchor before each of these labels, in their order, with the label's point as its target. An offence skips that
/// label alone, and is told with the label's place in the list: the label is not in the draft, or the row of Assumes and
/// Anchors through the fresh one would be above `MAX_ROW`, or the draft would have more labels than `MAX_CODE_LABELS`. The
/// program and the context stay.
pub fn insert_anchors<'p>(draft: Draft<'p>, places: &Labels) -> Result<(Draft<'p>, Skips), NoMemory>
    ensures program { IfOk result (λ made. made.0.program ≡ draft.entry.program) }
    ensures context { IfOk result (λ made. made.0.context ≡ draft.entry.context) }
    ensures code { IfOk result (λ made. AreAnchored 0 draft.entry.code places.now made.0.code made.1) }
{
    let (checked, context, mut code) = draft.into_parts();
    let mut skips = Skips::new(code.places.allocator());
    for (index, &label) in places.items().iter().enumerate() {
        code = insert_anchor(code, index, label, &mut skips)?;
    }
    Ok((Draft::adopt_in(checked, context, code), skips))
}

/// An Anchor before the label, which is number `index` of the list, where no condition is against it.
fn insert_anchor(
    code: Code,
    index: usize,
    label: Label,
    skips: &mut Skips,
) -> Result<Code, NoMemory>
    requires closed { IsClosed code }
    requires few { length code.places ≤ MAX_CODE_LABELS }
    ensures { IfOk result (λ made. IsAnchorStep code index label made skips.old skips.new) }
{
    if let Some(skipped) = anchor_offence(&code, label) {
        skips.push((told(index), skipped))?;
        return Ok(code);
    }
    anchored(code, label)
}

/// Why no Anchor stands before the label.
#[tactic(auto, unfolding(crate::specs::AnchorInsertion::anchor_offence, crate::specs::AnchorInsertion::offence_at))]
fn anchor_offence(code: &Code, label: Label) -> Option<Skipped>
    requires { length code.now.places ≤ MAX_CODE_LABELS }
    ensures { result ≡ anchor_offence code.now label }
{
    let labels = code.places.items().len() as u32;
    if label.0 >= labels {
        return Some(Skipped::NoPlace { label });
    }
    room_offence(fresh_row(code, label), labels + 1)
}

/// The code with a fresh Anchor before the label.
fn anchored(code: Code, label: Label) -> Result<Code, NoMemory>
    requires closed { IsClosed code }
    requires few { length code.places ≤ MAX_CODE_LABELS }
    requires within { label.0 < length code.places }
    ensures { IfOk result (IsAnchored code label) }
{
    let labels = code.places.items().len();
    let place = anchor_place(&code.places.items()[label.0 as usize], label)?;
    let table = table_to(code.places.allocator(), labels, label, Label(labels as u32))?;
    let entry = given(table.items(), code.entry);
    let mut places = led_places(code.places, table.items())?;
    places.push(place)?;
    Ok(Code {
        function: code.function,
        regs: code.regs,
        entry,
        places,
    })
}

/// For each label, where an edge to it goes: to the Anchor from the one that it is before.
fn table_to(alloc: Global, labels: usize, label: Label, anchor: Label) -> Result<Labels, NoMemory>
    requires { labels ≤ MAX_CODE_LABELS }
    ensures { IfOk result (IsTable (led_to label anchor) labels) }
{
    let mut table = Labels::new(alloc);
    for from in 0..labels {
        table.push(led_to(label, anchor, Label(from as u32)))?;
    }
    Ok(table)
}

/// The places with their edges led by the table.
fn led_places(places: Places, table: &[Label]) -> Result<Places, NoMemory>
    ensures { IfOk result (λ made. made ≡ map (led_place (given table.now)) places) }
{
    let mut made = Places::new(places.allocator());
    let mut rest = reversed(places)?;
    while let Some(place) = rest.pop() {
        made.push(led_place(place, table))?;
    }
    Ok(made)
}

/// The place of an Anchor before the label: it has the label's point, facts and pairs, and the pair of its target.
fn anchor_place(place: &Place, label: Label) -> Result<Place, NoMemory>
    ensures { IfOk result (IsAnchorPlace label place.now) }
{
    let backs = with_pair(&place.backs, 0, &place.point)?;
    let target = place.point.copy()?;
    let point = place.point.copy()?;
    let facts = place.facts.copy()?;
    let instr = VInstr::Anchor {
        back: 0,
        target,
        next: label,
    };
    Ok(Place {
        instr,
        point,
        facts,
        backs,
    })
}
