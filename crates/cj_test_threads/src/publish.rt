//! Two seats, and the function that returns 0.

ghost use Rattle.std.specs.Prelude.{◌≡◌, ◌+◌, ◌<◌, ◌≤◌, true, false, None, [], length, IfOk};
ghost use Rattle.cj_draft.specs.declared.code.Code.{Code};
ghost use Rattle.cj_draft.specs.Bodies.{IsNoAnchor, HasNoAnchors};
ghost use Rattle.cj_publish.specs.Cells.{IsCell};
ghost use Rattle.cj_publish.specs.Spelled.{SpellsVersion};
ghost use Rattle.cj_publish.specs.Rule.{IsVersion};
ghost use Rattle.cj_publish.specs.Seats.{view_of, key_of, program_of, IsSeatOf, Belongs, IsSame};
ghost use Rattle.cj_publish.specs.Calls.{IsReady};
ghost use Rattle.cj_publish.specs.Fetched.{main_of};

mod crowd;

use cj_draft::{Code, Draft, Place, VInstr, Version};
use cj_ir::{Checked, FunId};
use cj_publish::*;
use cj_samples::{alone, constant_zero};
use cj_spelling::laws::named_code_is_in_range;
use cj_spelling::{Words, encode};
use std::alloc::Global;
use std::process::Abort;
use std::test::Fail;

const MAIN: FunId = FunId(0);

fn is_no_anchor(place: &Place) -> bool
    ensures { result ≡ true → IsNoAnchor place.now.instr }
{
    match place.instr {
        VInstr::Anchor { .. } => false,
        _ => true,
    }
}

fn has_no_anchors(code: &Code) -> bool
    ensures { result ≡ true → HasNoAnchors code.now }
{
    for place in code.places.items() {
        if !is_no_anchor(place) {
            return false;
        }
    }
    true
}

// The words of a function's base body.
fn base_words(rt: &impl Abort, alloc: Global, checked: &Checked, f: FunId) -> Result<Words, Fail>
    requires { f.0 < length checked.now.functions }
    ensures { IfOk result (λ words. SpellsVersion checked.now f 0 words) }
{
    let draft = Draft::of_base(alloc, checked, f)?;
    let code = draft.code();
    assert!(rt; has_no_anchors(code));
    named_code_is_in_range(checked.program(), code);
    Ok(encode(alloc, code)?)
}

// Whether words at that offset are claimed, which then are written.
fn is_claimed(table: &CodeTable, seat: &mut CodeSeat, words: &[u64], at: u64) -> bool
    requires own { Belongs table.now seat.old }
    requires free { (view_of seat.old).claim ≡ None }
    requires version { IsVersion (key_of table.now) (main_of MAIN) words.now }
    ensures own { Belongs table.now seat.new × IsSame seat.old seat.new }
    ensures ready { result ≡ true → IsReady (view_of seat.new) (main_of MAIN) }
{
    match table.claim(seat, words.len() as u32) {
        Claim::Claimed { offset } => {
            table.write_all(seat, words);
            offset == at
        }
        Claim::Full { .. } => false,
    }
}

// Whether a claim that is ready is published so.
fn is_published(table: &CodeTable, seat: &mut CodeSeat, so: Published) -> bool
    requires own { Belongs table.now seat.old }
    requires cell { IsCell (key_of table.now) (main_of MAIN) }
    requires ready { IsReady (view_of seat.old) (main_of MAIN) }
    ensures own { Belongs table.now seat.new × IsSame seat.old seat.new }
    ensures free { (view_of seat.new).claim ≡ None }
{
    match table.publish(seat, MAIN) {
        Published::Published { offset } => so == Published::Published { offset },
        Published::Older { mine, found } => so == Published::Older { mine, found },
    }
}

// Whether the newest version stands there, and has one place.
fn has_one_place(
    table: &CodeTable,
    seat: &mut CodeSeat,
    alloc: Global,
    checked: &Checked,
    at: u64,
) -> Result<bool, Fail>
    requires own { Belongs table.now seat.old }
    requires cell { IsCell (key_of table.now) (main_of MAIN) }
    requires program { checked.now ≡ program_of table.now }
    requires free { (view_of seat.old).claim ≡ None }
    ensures own { Belongs table.now seat.new × IsSame seat.old seat.new }
    ensures free { (view_of seat.new).claim ≡ None }
{
    let found = table.lookup(seat, MAIN);
    if found == 0 {
        return Ok(false);
    }
    let version = table.fetch(alloc, seat, checked, MAIN, found)?;
    Ok(found == at && version.code().places.items().len() == 1)
}

#[test]
fn of_two_versions_the_greater_offset_stays(rt: HostRuntime) -> Result<(), Fail> {
    let alloc = rt.alloc();
    let checked = alone(constant_zero(alloc, "main")?)?;
    assert!(rt; checked.program().functions.items().len() == 1);
    let words = base_words(&rt, alloc, &checked, MAIN)?;
    assert_eq!(rt; words.items().len(), 17);
    let (table, mut low) = CodeTable::make(alloc, &checked, 100)?;
    let mut high = table.split(&mut low);
    assert!(rt; is_claimed(&table, &mut low, words.items(), 2));
    assert!(rt; is_claimed(&table, &mut high, words.items(), 19));
    assert!(rt; is_published(&table, &mut high, Published::Published { offset: 19 }));
    assert!(rt; is_published(&table, &mut low, Published::Older { mine: 2, found: 19 }));
    assert!(rt; has_one_place(&table, &mut low, alloc, &checked, 19)?);
    table.join(&mut low, high);
    table.confirm(&mut low);
    table.close(low);
    Ok(())
}

#[test]
fn a_full_table_keeps_its_versions(rt: HostRuntime) -> Result<(), Fail> {
    let alloc = rt.alloc();
    let checked = alone(constant_zero(alloc, "main")?)?;
    assert!(rt; checked.program().functions.items().len() == 1);
    let words = base_words(&rt, alloc, &checked, MAIN)?;
    let (table, mut seat) = CodeTable::make(alloc, &checked, 30)?;
    assert_eq!(rt; table.lookup(&mut seat, MAIN), 0);
    assert!(rt; is_claimed(&table, &mut seat, words.items(), 2));
    let first = table.publish(&mut seat, MAIN);
    assert!(rt; first == Published::Published { offset: 2 });
    let second = table.claim(&mut seat, 17);
    assert!(rt; second == Claim::Full { next: 19, need: 17 });
    assert_eq!(rt; table.lookup(&mut seat, MAIN), 2);
    table.close(seat);
    Ok(())
}
