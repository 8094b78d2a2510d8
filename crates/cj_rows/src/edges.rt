//! Places whose edges are led by a table.

ghost use Rattle.std.specs.Prelude.{◌≡◌};
ghost use Rattle.cj_draft.specs.Relabel.{relabel};
ghost use Rattle.cj_rows.specs.Edges.{led_place};
ghost use Rattle.cj_rows.specs.Tables.{given};

use cj_draft::{Place, VInstr};
use cj_ir::Label;

/// The label that the table has for a label; others stay.
#[tactic(auto, unfolding(crate::specs::Tables::given))]
pub fn given(table: &[Label], label: Label) -> Label
    ensures { result ≡ given table.now label }
{
    match table.get(label.0 as usize) {
        None => label,
        Some(&to) => to,
    }
}

/// The instruction with its edges led by the table.
#[tactic(auto, unfolding(cj_draft::specs::Relabel::relabel))]
fn relabelled(mut instr: VInstr, table: &[Label]) -> VInstr
    ensures { result ≡ relabel (given table.now) instr }
{
    match &mut instr {
        VInstr::Nop { next } => *next = given(table, *next),
        VInstr::Op { next, .. } => *next = given(table, *next),
        VInstr::Move { next, .. } => *next = given(table, *next),
        VInstr::Call { next, .. } => *next = given(table, *next),
        VInstr::Print { next, .. } => *next = given(table, *next),
        VInstr::Load { next, .. } => *next = given(table, *next),
        VInstr::Store { next, .. } => *next = given(table, *next),
        VInstr::Assume { next, .. } => *next = given(table, *next),
        VInstr::Anchor { next, .. } => *next = given(table, *next),
        VInstr::Cond {
            then_to,
            else_to,
            ..
        } => {
            *then_to = given(table, *then_to);
            *else_to = given(table, *else_to);
        }
        VInstr::Return { .. } | VInstr::Fail { .. } => {}
    }
    instr
}

/// The place with its edges led by the table.
#[tactic(auto, unfolding(crate::specs::Edges::led_place))]
pub fn led_place(place: Place, table: &[Label]) -> Place
    ensures { result ≡ led_place (given table.now) place }
{
    let Place {
        instr,
        point,
        facts,
        backs,
    } = place;
    Place {
        instr: relabelled(instr, table),
        point,
        facts,
        backs,
    }
}
