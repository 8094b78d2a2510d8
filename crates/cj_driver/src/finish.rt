//! How a top call ended.

ghost use Rattle.std.specs.Prelude.{◌≡◌, None};
ghost use Rattle.cj_driver.specs.Made.{IsNothing, IsReportsAlone};

use cj_calls::Reports;
use cj_notes::Works;
use cj_records::Store;
use cj_tokens::Refused;
use std::alloc::Global;

/// What a command made, with the statuses 0 and 5; with any other status nothing.
#[derive(Drop)]
pub struct Made {
    /// The reports of the calls, in order.
    pub reports: Reports,
    /// The notes of the workers: those of the `warm` lines, and then those of each work.
    pub work: Works,
    /// The tables over which the calls ran, and their seats, where the command has them.
    pub store: Option<Store>,
}

impl Made {
    /// Nothing is made.
    pub fn nothing(alloc: Global) -> Made
        ensures { IsNothing result }
    {
        Made {
            reports: Reports::new(alloc),
            work: Works::new(alloc),
            store: None,
        }
    }

    /// Reports are made, without workers and tables.
    pub fn reports_alone(alloc: Global, reports: Reports) -> Made
        ensures { IsReportsAlone result reports }
    {
        Made {
            reports,
            work: Works::new(alloc),
            store: None,
        }
    }
}

/// How a top call ended.
#[derive(Drop)]
pub struct Finish {
    /// 0 done, 2 usage, 3 refused, 4 read fault, 5 write fault, 6 no memory, 7 too long.
    pub status: u8,
    /// The first offence of the input, with status 3 alone.
    pub refused: Option<Refused>,
    /// What was made, with the statuses 0 and 5.
    pub made: Made,
}

impl Finish {
    /// An end with a status alone: nothing was made.
    pub fn stopped(alloc: Global, status: u8, refused: Option<Refused>) -> Finish
        ensures status { result.status ≡ status }
        ensures refused { result.refused ≡ refused }
        ensures nothing { IsNothing result.made }
    {
        Finish {
            status,
            refused,
            made: Made::nothing(alloc),
        }
    }
}
