//! The rule, and what each step tells.
ghost use Rattle.cj_publish.specs.Rule.{RuledAs};
ghost use Rattle.cj_publish.specs.Views.{fresh_as, shared, given, joined_view, spent_view};
ghost use Rattle.cj_publish.specs.Plays.{fronted, claimed, neared, published, wrote, looked, fetched, confirmed};

use crate::view::{Told, View};
use atomic_table::{Join, Play, Split, TableRule};

pub struct Order;

impl TableRule<(), View, Told> for Order {
    ghost holds = { RuledAs };

    ghost first = { fresh_as };
}

pub struct Cut;

impl Split<View> for Cut {
    ghost left = { shared };

    ghost right = { given };
}

pub struct Glue;

impl Join<View> for Glue {
    ghost both = { joined_view };

    ghost spent = { spent_view };
}

pub struct Front;

impl Play<(), View> for Front {
    ghost then = { fronted };
}

pub struct Take;

impl Play<(), View> for Take {
    ghost then = { claimed };
}

pub struct Near;

impl Play<(), View> for Near {
    ghost then = { neared };
}

pub struct Publish;

impl Play<(), View> for Publish {
    ghost then = { published };
}

pub struct Write;

impl Play<(), View> for Write {
    ghost then = { wrote };
}

pub struct Look;

impl Play<(), View> for Look {
    ghost then = { looked };
}

pub struct Fetch;

impl Play<(), View> for Fetch {
    ghost then = { fetched };
}

pub struct Confirm;

impl Play<(), View> for Confirm {
    ghost then = { confirmed };
}
