//! The seats of a run on one thread.

use cj_profile::ProfileSeat;
use cj_publish::CodeSeat;

/// A seat at each of the two tables, which goes from sessions to workers and back.
#[derive(Drop)]
pub(crate) struct Seats {
    pub(crate) code: CodeSeat,
    pub(crate) profile: ProfileSeat,
}
