//! What a lookup finds.

ghost use Rattle.std.specs.Prelude.{◌≡◌, ◌≢◌, ℕ, IfOk, OnErr, IsSome};
ghost use Rattle.cj_machine.specs.CodeMaps.{Grows};
ghost use Rattle.cj_publish.specs.Cells.{IsCell};
ghost use Rattle.cj_publish.specs.Fetched.{main_of};
ghost use Rattle.cj_publish.specs.Seats.{view_of, key_of, program_of, Belongs, IsSame};
ghost use Rattle.cj_session.specs.Versions.{codes_in, AreKnown};
ghost use Rattle.cj_session.specs.Sessions.{Looks, LooksUp};

use crate::versions::Versions;
use cj_ir::{Checked, FunId, NoMemory};
use cj_publish::{CodeSeat, CodeTable};
use std::alloc::Global;

/// The offset of a function's newest version, or 0, as one load finds it. A version that is not known yet is read.
pub(crate) fn find<'a>(
    alloc: Global,
    table: &CodeTable,
    seat: &mut CodeSeat,
    checked: &'a Checked,
    versions: &mut Versions<'a>,
    f: FunId,
) -> Result<u64, NoMemory>
    requires own { Belongs table.now seat.old }
    requires program { checked.now ≡ program_of table.now }
    requires cell { IsCell (key_of table.now) (main_of f) }
    requires known { AreKnown checked.now (view_of seat.old) versions.old }
    ensures own { Belongs table.now seat.new }
    ensures same { IsSame seat.old seat.new }
    ensures looks { Looks (view_of seat.old) (view_of seat.new) }
    ensures looked { IfOk result (λ offset. LooksUp f offset (view_of seat.old) (view_of seat.new)) }
    ensures no_memory { OnErr result ((offset : ℕ) × LooksUp f offset (view_of seat.old) (view_of seat.new)) }
    ensures known { AreKnown checked.now (view_of seat.new) versions.new }
    ensures grows { Grows (codes_in versions.old.map.entries) (codes_in versions.new.map.entries) }
    ensures found { IfOk result (λ offset. offset ≢ 0 → IsSome (codes_in versions.new.map.entries f offset)) }
{
    let offset = table.lookup(seat, f);
    if offset != 0 && !versions.has(f, offset) {
        let version = table.fetch(alloc, seat, checked, f, offset)?;
        let _code = version.code();
        versions.add(f, offset, version)?;
    }
    Ok(offset)
}
