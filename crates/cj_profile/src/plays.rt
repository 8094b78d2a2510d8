//! The rule of the words, and what each step tells.

ghost use Rattle.cj_profile.specs.Rule.{Ruled, fresh, shared, given, spent_view, joined_view, loaded, stored, added, raised, exchanged};

use crate::view::View;
use atomic_table::{Join, Play, Split, TableRule};
use cj_ir::Checked;

/// Asked levels are 0 to 3.
pub struct Levels;

impl TableRule<(), View, Checked> for Levels {
    ghost holds = { Ruled };

    ghost first = { fresh };
}

/// Splitting a seat off, and joining one.
pub struct Seating;

impl Split<View> for Seating {
    ghost left = { shared };

    ghost right = { given };
}

impl Join<View> for Seating {
    ghost both = { joined_view };

    ghost spent = { spent_view };
}

pub struct Load;

impl Play<(), View> for Load {
    ghost then = { loaded };
}

pub struct Store;

impl Play<(), View> for Store {
    ghost then = { stored };
}

pub struct Add;

impl Play<(), View> for Add {
    ghost then = { added };
}

pub struct Raise;

impl Play<(), View> for Raise {
    ghost then = { raised };
}

pub struct Exchange;

impl Play<(), View> for Exchange {
    ghost then = { exchanged };
}
