//! Why no Assume can stand at the end of a path.

ghost use Rattle.std.specs.Prelude.{◌≡◌, ◌+◌, ◌-◌, ◌<◌, ◌≤◌, length};
ghost use Rattle.std.specs.List.{list_any};
ghost use Rattle.cj_ir.specs.Program.{instr_at};
ghost use Rattle.cj_draft.specs.Edges.{listed};
ghost use Rattle.cj_draft.specs.Arrives.{place_at};
ghost use Rattle.cj_delay.specs.DelayedAssume.{nexts_in, is_label, is_silent, base_at, is_turn, is_passed, passed_in, on_path, turn_at, turns_before, is_edge, joined_offence, silent_offence, step_offence, steps_offence, long_offence, end_offence, anchor_number, offence_from, missing_offence, delay_offence};
ghost use Rattle.cj_delay.specs.CountedEdges.{AreNextsWithin, AreCounted};
ghost use Rattle.cj_draft.specs.declared.limits.TheConstants.{MAX_CODE_LABELS};

use crate::edges::edges_into;
use cj_draft::{Code, Point, Skipped, Successors, VInstr, limits, told};
use cj_ir::{FunId, Guard, Instr, Label, Program};
use cj_links::EdgeLists;
use cj_rows::{fresh_row, guards_offence, register_offence, room_offence};

/// Base turns that an Assume takes back, at most.
const MAX_BACK: usize = limits::MAX_BACK as usize;

/// Why no Assume with these guards stands at the end of the path: the first of the conditions that holds.
#[tactic(auto, unfolding(crate::specs::DelayedAssume::delay_offence, crate::specs::DelayedAssume::offence_on, crate::specs::DelayedAssume::offence_from, cj_rows::specs::Guards::or_next, cj_rows::specs::Guards::if_missing))]
pub(crate) fn delay_offence(
    program: &Program,
    code: &Code,
    lists: &EdgeLists,
    path: &[Label],
    guards: &[Guard],
) -> Option<Skipped>
    requires counted { AreCounted code.now lists.now }
    requires closed { AreNextsWithin code.now.places }
    requires few { length code.now.places ≤ MAX_CODE_LABELS }
    ensures { result ≡ delay_offence program.now code.now path.now guards.now }
{
    let first = on_path(path, 0);
    if path.len() < 2 {
        return Some(Skipped::NoEdge { label: first });
    }
    if let Some(skipped) = missing_offence(code, path) {
        return Some(skipped);
    }
    let Some(place) = code.places.items().get(first.0 as usize) else {
        return Some(Skipped::NoPlace { label: first });
    };
    let Some(number) = anchor_number(&place.instr) else {
        return Some(Skipped::NotAnchor { label: first });
    };
    let skipped = offence_from(program, code, lists, path, guards, number);
    skipped
}

/// The first of the labels that is not in the draft.
fn missing_offence(code: &Code, labels: &[Label]) -> Option<Skipped>
    ensures { result ≡ missing_offence code.now labels.now }
{
    let count = code.places.items().len();
    for &label in labels {
        if label.0 as usize >= count {
            return Some(Skipped::NoPlace { label });
        }
    }
    None
}

/// Why no Assume stands at the end of the path, which begins at an Anchor of that number.
#[tactic(auto, unfolding(crate::specs::DelayedAssume::offence_from, crate::specs::DelayedAssume::turns_back, cj_rows::specs::Guards::or_next))]
fn offence_from(
    program: &Program,
    code: &Code,
    lists: &EdgeLists,
    path: &[Label],
    guards: &[Guard],
    number: u32,
) -> Option<Skipped>
    requires counted { AreCounted code.now lists.now }
    requires closed { AreNextsWithin code.now.places }
    requires few { length code.now.places ≤ MAX_CODE_LABELS }
    requires long { 2 ≤ length path.now }
    ensures { result ≡ offence_from program.now code.now path.now guards.now (Some number) }
{
    if let Some(skipped) = steps_offence(program, code, lists, path) {
        return Some(skipped);
    }
    let end = path.len() - 1;
    let back = number as usize + turns_before(code, path, end);
    end_offence(code, on_path(path, end), guards, back)
}

/// The label of that number of a path, and label 0 behind its end.
#[tactic(auto, unfolding(crate::specs::DelayedAssume::on_path))]
pub(crate) fn on_path(path: &[Label], at: usize) -> Label
    ensures { result ≡ on_path path.now at }
{
    match path.get(at) {
        None => Label(0),
        Some(&label) => label,
    }
}

/// The number of an Anchor.
#[tactic(auto, unfolding(crate::specs::DelayedAssume::anchor_number))]
fn anchor_number(instr: &VInstr) -> Option<u32>
    ensures { result ≡ anchor_number instr.now }
{
    match *instr {
        VInstr::Anchor { back, .. } => Some(back),
        _ => None,
    }
}

/// The first reason why the path does not go on from one of its labels to the next.
fn steps_offence(
    program: &Program,
    code: &Code,
    lists: &EdgeLists,
    path: &[Label],
) -> Option<Skipped>
    requires counted { AreCounted code.now lists.now }
    requires closed { AreNextsWithin code.now.places }
    ensures { result ≡ steps_offence program.now code.now path.now (length path.now - 1) 1 }
{
    for at in 1..path.len() {
        if let Some(skipped) = step_offence(program, code, lists, path, at) {
            return Some(skipped);
        }
    }
    None
}

/// Why the path does not go on to its label of that number.
#[tactic(auto, unfolding(crate::specs::DelayedAssume::step_offence, crate::specs::DelayedAssume::silent_offence, crate::specs::DelayedAssume::joined_offence, cj_rows::specs::Guards::or_next, cj_rows::specs::Guards::if_missing))]
fn step_offence(
    program: &Program,
    code: &Code,
    lists: &EdgeLists,
    path: &[Label],
    at: usize,
) -> Option<Skipped>
    requires counted { AreCounted code.now lists.now }
    requires closed { AreNextsWithin code.now.places }
    requires after { 0 < at }
    requires within { at < length path.now }
    ensures { result ≡ step_offence program.now code.now path.now at }
{
    let label = on_path(path, at);
    if !is_edge(code, path, at) {
        return Some(Skipped::NoEdge { label });
    }
    let count = edges_into(code, lists, label);
    if count != 1 {
        return Some(Skipped::Joined {
            label,
            count: told(count),
        });
    }
    if at + 1 == path.len() || is_passed_at(program, code, label) {
        None
    } else {
        Some(Skipped::NotSilent { label })
    }
}

/// Whether a label of the path is a successor of the one before it, and does not stand earlier in the path.
#[tactic(auto, unfolding(crate::specs::DelayedAssume::is_edge))]
fn is_edge(code: &Code, path: &[Label], at: usize) -> bool
    requires after { 0 < at }
    requires within { at < length path.now }
    ensures { result ≡ is_edge code.now path.now at }
{
    let label = on_path(path, at);
    goes_to(code, on_path(path, at - 1), label) && !has_label(&path[..at], label)
}

/// Whether a label goes on to another.
#[tactic(auto, unfolding(crate::specs::DelayedAssume::nexts_in))]
fn goes_to(code: &Code, from: Label, label: Label) -> bool
    ensures { result ≡ list_any (is_label label) (nexts_in (place_at code.now from)) }
{
    match code.places.items().get(from.0 as usize) {
        None => false,
        Some(place) => is_among(place.instr.successors(), label),
    }
}

#[tactic(auto, unfolding(crate::specs::DelayedAssume::is_label))]
fn is_among(labels: Successors, label: Label) -> bool
    ensures { result ≡ list_any (is_label label) (listed labels) }
{
    match labels {
        Successors::End => false,
        Successors::One { next } => next.0 == label.0,
        Successors::Two { then_to, else_to } => then_to.0 == label.0 || else_to.0 == label.0,
    }
}

#[tactic(auto, unfolding(crate::specs::DelayedAssume::is_label))]
fn has_label(labels: &[Label], label: Label) -> bool
    ensures { result ≡ list_any (is_label label) labels.now }
{
    labels.iter().any(|other| other.0 == label.0)
}

/// Whether a label may stand between the Anchor and the Assume.
#[tactic(auto, unfolding(crate::specs::DelayedAssume::passed_in, crate::specs::DelayedAssume::is_passed))]
fn is_passed_at(program: &Program, code: &Code, label: Label) -> bool
    ensures { result ≡ passed_in program.now (place_at code.now label) }
{
    let Some(place) = code.places.items().get(label.0 as usize) else {
        return false;
    };
    match place.instr {
        VInstr::Nop { .. } | VInstr::Cond { .. } => is_silent_at(program, &place.point),
        VInstr::Assume { .. } | VInstr::Anchor { .. } => true,
        _ => false,
    }
}

/// Whether the base instruction at a point is a nop or a cond.
#[tactic(auto, unfolding(crate::specs::DelayedAssume::is_silent, crate::specs::DelayedAssume::base_at, crate::specs::DelayedAssume::base_in))]
fn is_silent_at(program: &Program, point: &Point) -> bool
    ensures { result ≡ is_silent (base_at program.now point.now) }
{
    match point.frames.items().get(0) {
        None => false,
        Some(top) => is_silent_in(program, top.function, top.label),
    }
}

#[tactic(auto, unfolding(crate::specs::DelayedAssume::is_silent))]
fn is_silent_in(program: &Program, function: FunId, label: Label) -> bool
    ensures { result ≡ is_silent (instr_at program.now function label) }
{
    let Some(function) = program.functions.items().get(function.0 as usize) else {
        return false;
    };
    let Some(line) = function.code.items().get(label.0 as usize) else {
        return false;
    };
    match line.instr {
        Instr::Nop { .. } | Instr::Cond { .. } => true,
        _ => false,
    }
}

/// How many Nops and Conds stand between the first label of a path and that number.
pub(crate) fn turns_before(code: &Code, path: &[Label], at: usize) -> usize
    requires after { 0 < at }
    requires within { at ≤ length path.now }
    ensures count { result ≡ turns_before code.now path.now at }
    ensures few { result ≤ length path.now }
{
    let mut count = 0;
    for index in 1..at {
        if is_turn_at(code, on_path(path, index)) {
            count += 1;
        }
    }
    count
}

/// Whether a label holds a Nop or Cond.
#[tactic(auto, unfolding(crate::specs::DelayedAssume::turn_at, crate::specs::DelayedAssume::turn_in))]
pub(crate) fn is_turn_at(code: &Code, label: Label) -> bool
    ensures { result ≡ turn_at code.now label }
{
    match code.places.items().get(label.0 as usize) {
        None => false,
        Some(place) => is_turn(&place.instr),
    }
}

#[tactic(auto, unfolding(crate::specs::DelayedAssume::is_turn))]
fn is_turn(instr: &VInstr) -> bool
    ensures { result ≡ is_turn instr.now }
{
    match instr {
        VInstr::Nop { .. } | VInstr::Cond { .. } => true,
        _ => false,
    }
}

/// Which limit an Assume with these guards before the path's last label is above, where it takes so many turns back.
#[tactic(auto, unfolding(crate::specs::DelayedAssume::end_offence, cj_rows::specs::Guards::or_next))]
fn end_offence(code: &Code, last: Label, guards: &[Guard], back: usize) -> Option<Skipped>
    requires { length code.now.places ≤ MAX_CODE_LABELS }
    ensures { result ≡ end_offence code.now last guards.now back }
{
    if let Some(skipped) = long_offence(back) {
        return Some(skipped);
    }
    if let Some(skipped) = register_offence(code.regs, guards) {
        return Some(skipped);
    }
    if let Some(skipped) = guards_offence(0, guards.len()) {
        return Some(skipped);
    }
    let labels = code.places.items().len() as u32;
    room_offence(fresh_row(code, last), labels + 1)
}

#[tactic(auto, unfolding(crate::specs::DelayedAssume::long_offence, cj_rows::specs::Guards::if_missing))]
fn long_offence(back: usize) -> Option<Skipped>
    ensures { result ≡ long_offence back }
{
    if back <= MAX_BACK {
        return None;
    }
    Some(Skipped::TooLong { count: told(back) })
}
