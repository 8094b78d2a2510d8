//! What a role is given, and what it gives back.

use cj_calls::Report;
use cj_ir::{Checked, ScriptCall};
use cj_notes::Works;
use cj_profile::{Profile, ProfileSeat};
use cj_publish::{CodeSeat, CodeTable};
use std::collections::VecDeque;

/// What all roles share: a program, the calls of its script, and the two tables.
#[derive(Clone, Copy)]
pub(crate) struct Shared<'a> {
    pub(crate) checked: &'a Checked,
    pub(crate) calls: &'a [ScriptCall],
    pub(crate) code: &'a CodeTable,
    pub(crate) profile: &'a Profile,
}

/// What a role does.
#[derive(Clone, Copy)]
pub(crate) enum Role {
    /// It runs the call at `first`, which is counted from 0, and each that lies another `callers` further on.
    Caller { first: u32, callers: u32 },
    /// It works until so many callers have finished.
    Worker { callers: u32 },
}

/// A role with its seats.
#[derive(Drop)]
pub(crate) struct Job {
    pub(crate) role: Role,
    pub(crate) code_seat: CodeSeat,
    pub(crate) profile_seat: ProfileSeat,
}

/// What a role has come to: a caller's reports, a worker's notes, and the seats.
#[derive(Drop)]
pub(crate) struct RoleDone {
    pub(crate) reports: VecDeque<Report>,
    pub(crate) work: Works,
    pub(crate) code_seat: CodeSeat,
    pub(crate) profile_seat: ProfileSeat,
}

/// The place of a role among those that run beside each other.
#[derive(Drop)]
pub(crate) enum Slot {
    Given(Job),
    Ended(RoleDone),
    /// Memory ran out.
    Lost,
}
