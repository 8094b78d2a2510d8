//! Four seats in threads, which look two functions up, fetch what they find, and publish versions of them.

ghost use Rattle.std.specs.Prelude.{◌≡◌, ◌<◌, ◌≤◌, true, false, None, [], length, IfOk};
ghost use Rattle.std.specs.Thread.{IsSync};
ghost use Rattle.cj_publish.specs.Cells.{IsCell};
ghost use Rattle.cj_publish.specs.Rule.{IsVersion};
ghost use Rattle.cj_publish.specs.Seats.{view_of, key_of, program_of, Belongs, IsSame};
ghost use Rattle.cj_publish.specs.Seen.{SeenAt};
ghost use Rattle.cj_publish.specs.Fetched.{main_of};

use super::{MAIN, base_words};
use cj_ir::{Checked, FunId, Functions, NoMemory, Program, check};
use cj_publish::*;
use cj_samples::constant_zero;
use cj_spelling::encode;
use cj_spelling::laws::named_code_is_in_range;
use std::alloc::Global;
use std::test::Fail;
use std::thread::{Threads, join_mut};

const OTHER: FunId = FunId(1);

// How often each seat looks a function up and publishes a version of it.
const ROUNDS: u32 = 8;

// What the threads share: the table and its program, and the words of a version of each function.
#[derive(Drop)]
struct Shop<'a> {
    alloc: Global,
    table: &'a CodeTable,
    checked: &'a Checked,
    main: &'a [u64],
    other: &'a [u64],
}

// Whether the version at that offset has these words.
fn has_words(
    shop: &Shop<'_>,
    seat: &mut CodeSeat,
    f: FunId,
    offset: u64,
    words: &[u64],
) -> Result<bool, NoMemory>
    requires own { Belongs shop.now.table.now seat.old }
    requires free { (view_of seat.old).claim ≡ None }
    requires seen { SeenAt (view_of seat.old) (main_of f) offset }
    requires program { shop.now.checked.now ≡ program_of shop.now.table.now }
    ensures own { Belongs shop.now.table.now seat.new × IsSame seat.old seat.new }
    ensures free { (view_of seat.new).claim ≡ None }
{
    let version = shop.table.fetch(shop.alloc, seat, shop.checked, f, offset)?;
    named_code_is_in_range(shop.checked.program(), version.code());
    match encode(shop.alloc, version.code()) {
        Ok(again) => Ok(again.items() == words),
        Err(_) => Err(NoMemory),
    }
}

// Whether a version that is found has these words, and stands at no smaller offset than the last one.
fn is_found(
    shop: &Shop<'_>,
    seat: &mut CodeSeat,
    f: FunId,
    words: &[u64],
    last: &mut u64,
) -> Result<bool, NoMemory>
    requires own { Belongs shop.now.table.now seat.old }
    requires free { (view_of seat.old).claim ≡ None }
    requires cell { IsCell (key_of shop.now.table.now) (main_of f) }
    requires program { shop.now.checked.now ≡ program_of shop.now.table.now }
    ensures own { Belongs shop.now.table.now seat.new × IsSame seat.old seat.new }
    ensures free { (view_of seat.new).claim ≡ None }
{
    let found = shop.table.lookup(seat, f);
    let before = *last;
    *last = found;
    if found == 0 {
        return Ok(before == 0);
    }
    let same = has_words(shop, seat, f, found, words)?;
    Ok(same && before <= found)
}

// Publishes a version with these words, where there is room for it.
fn offer(table: &CodeTable, seat: &mut CodeSeat, f: FunId, words: &[u64])
    requires own { Belongs table.now seat.old }
    requires free { (view_of seat.old).claim ≡ None }
    requires cell { IsCell (key_of table.now) (main_of f) }
    requires version { IsVersion (key_of table.now) (main_of f) words.now }
    ensures own { Belongs table.now seat.new × IsSame seat.old seat.new }
    ensures free { (view_of seat.new).claim ≡ None }
{
    if let Claim::Claimed { offset: _ } = table.claim(seat, words.len() as u32) {
        table.write_all(seat, words);
        table.publish(seat, f);
    }
}

// One look at a function, and one version of it.
fn turn(
    shop: &Shop<'_>,
    seat: &mut CodeSeat,
    f: FunId,
    words: &[u64],
    last: &mut u64,
) -> Result<bool, NoMemory>
    requires own { Belongs shop.now.table.now seat.old }
    requires free { (view_of seat.old).claim ≡ None }
    requires cell { IsCell (key_of shop.now.table.now) (main_of f) }
    requires version { IsVersion (key_of shop.now.table.now) (main_of f) words.now }
    requires program { shop.now.checked.now ≡ program_of shop.now.table.now }
    ensures own { Belongs shop.now.table.now seat.new × IsSame seat.old seat.new }
    ensures free { (view_of seat.new).claim ≡ None }
{
    let right = is_found(shop, seat, f, words, last)?;
    offer(shop.table, seat, f, words);
    Ok(right)
}

// Whether all that was found in these turns was right.
fn turns(shop: &Shop<'_>, seat: &mut CodeSeat, f: FunId, words: &[u64]) -> bool
    requires own { Belongs shop.now.table.now seat.old }
    requires free { (view_of seat.old).claim ≡ None }
    requires cell { IsCell (key_of shop.now.table.now) (main_of f) }
    requires version { IsVersion (key_of shop.now.table.now) (main_of f) words.now }
    requires program { shop.now.checked.now ≡ program_of shop.now.table.now }
    ensures own { Belongs shop.now.table.now seat.new × IsSame seat.old seat.new }
    ensures free { (view_of seat.new).claim ≡ None }
{
    let mut last = 0;
    for _round in 0..ROUNDS {
        let Ok(true) = turn(shop, seat, f, words, &mut last) else {
            return false;
        };
    }
    true
}

// The same for both functions.
fn visit(shop: &Shop<'_>, seat: &mut CodeSeat) -> bool
    requires own { Belongs shop.now.table.now seat.old }
    requires free { (view_of seat.old).claim ≡ None }
    requires program { shop.now.checked.now ≡ program_of shop.now.table.now }
    requires cells { IsCell (key_of shop.now.table.now) (main_of MAIN) × IsCell (key_of shop.now.table.now) (main_of OTHER) }
    requires main { IsVersion (key_of shop.now.table.now) (main_of MAIN) shop.now.main.now }
    requires other { IsVersion (key_of shop.now.table.now) (main_of OTHER) shop.now.other.now }
    ensures own { Belongs shop.now.table.now seat.new × IsSame seat.old seat.new }
    ensures free { (view_of seat.new).claim ≡ None }
{
    let main = turns(shop, seat, MAIN, shop.main);
    let other = turns(shop, seat, OTHER, shop.other);
    main && other
}

// Two seats at once, each in a thread.
fn pair_visits(rt: &impl Threads, shop: &Shop<'_>, a: &mut CodeSeat, b: &mut CodeSeat) -> bool
    requires own { Belongs shop.now.table.now a.old × Belongs shop.now.table.now b.old }
    requires free { ((view_of a.old).claim ≡ None) × ((view_of b.old).claim ≡ None) }
    requires program { shop.now.checked.now ≡ program_of shop.now.table.now }
    requires cells { IsCell (key_of shop.now.table.now) (main_of MAIN) × IsCell (key_of shop.now.table.now) (main_of OTHER) }
    requires main { IsVersion (key_of shop.now.table.now) (main_of MAIN) shop.now.main.now }
    requires other { IsVersion (key_of shop.now.table.now) (main_of OTHER) shop.now.other.now }
    ensures own { Belongs shop.now.table.now a.new × Belongs shop.now.table.now b.new }
    ensures same { IsSame a.old a.new × IsSame b.old b.new }
    ensures free { ((view_of a.new).claim ≡ None) × ((view_of b.new).claim ≡ None) }
{
    let (one, two) = join_mut(rt, &mut || visit(shop, a), &mut || visit(shop, b));
    one && two
}

// Two functions that return 0.
fn pair_of_zeros(alloc: Global) -> Result<Checked, Fail> {
    let mut functions = Functions::new(alloc);
    functions.push(constant_zero(alloc, "main")?)?;
    functions.push(constant_zero(alloc, "other")?)?;
    Ok(check(Program { functions })?)
}

#[test]
fn four_seats_find_what_was_published(rt: HostRuntime) -> Result<(), Fail> {
    let alloc = rt.alloc();
    let checked = pair_of_zeros(alloc)?;
    assert!(rt; checked.program().functions.items().len() == 2);
    let main = base_words(&rt, alloc, &checked, MAIN)?;
    let other = base_words(&rt, alloc, &checked, OTHER)?;
    let (table, mut a) = CodeTable::make(alloc, &checked, 700)?;
    let mut b = table.split(&mut a);
    let mut c = table.split(&mut a);
    let mut d = table.split(&mut a);
    let shop = Shop {
        alloc,
        table: &table,
        checked: &checked,
        main: main.items(),
        other: other.items(),
    };
    let (one, two) = join_mut(
        &rt,
        &mut || pair_visits(&rt, &shop, &mut a, &mut b),
        &mut || pair_visits(&rt, &shop, &mut c, &mut d),
    );
    assert!(rt; one && two);
    table.join(&mut c, d);
    table.join(&mut a, b);
    table.join(&mut a, c);
    table.confirm(&mut a);
    let last = table.claim(&mut a, 17);
    assert!(rt;
        last == Claim::Full {
            next: 700,
            need: 17
        }
    );
    table.close(a);
    Ok(())
}
