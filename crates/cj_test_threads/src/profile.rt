//! The profile of the increment, and seats that are split off and joined.

ghost use Rattle.std.specs.Prelude.{◌≡◌, ◌<◌, true, false, IfOk, IsTrue};
ghost use Rattle.cj_profile.specs.Seats.{program_of, Belongs};
ghost use Rattle.cj_test_threads.specs.Increment.{IsIncrement};

use cj_ir::{Checked, Edge, FunId, Label};
use cj_profile::{EdgeNote, JobAnswer, ParamNote, Profile, ProfileSeat};
use cj_samples::{alone, increment};
use std::alloc::Global;
use std::process::Abort;
use std::test::Fail;

const MAIN: FunId = FunId(0);

const NO_EDGE: EdgeNote = EdgeNote {
    then_count: 0,
    else_count: 0,
};

fn is_shared<T: Send + Sync>(_value: &T) {}

fn is_sent<T: Send>(_value: &T) {}

// The first function has one parameter, and at least three labels.
fn is_increment(checked: &Checked) -> bool
    ensures { IsTrue result → IsIncrement checked.now }
{
    if checked.program().functions.items().is_empty() {
        return false;
    }
    let main = checked.function(MAIN);
    main.params == 1 && main.code.items().len() == 3
}

// The profile of the increment, with its first seat.
fn begin(rt: &impl Abort, alloc: Global) -> Result<(Profile, ProfileSeat), Fail>
    ensures own { IfOk result (λ made. Belongs made.0 made.1 × IsIncrement (program_of made.0)) }
    ensures first { IfOk result (λ made. (made.1.first ≡ true) × (made.1.splits ≡ 0)) }
{
    let checked = alone(increment(alloc)?)?;
    assert!(rt; is_increment(&checked));
    Ok(Profile::make(alloc, &checked)?)
}

// Enters the function with 4 that many times. The answer is the last count.
fn enter(profile: &Profile, seat: &mut ProfileSeat, times: u32) -> u64
    requires own { Belongs profile.now seat.old }
    requires main { IsIncrement (program_of profile.now) }
    ensures own { Belongs profile.now seat.new }
    ensures first { seat.new.first ≡ seat.old.first }
{
    let mut count = 0;
    for _ in 0..times {
        count = profile.entered(seat, MAIN, &[4]);
    }
    count
}

// What is taken now, and then.
fn takes(
    rt: &impl Abort,
    profile: &Profile,
    seat: &mut ProfileSeat,
    job: JobAnswer,
) -> Result<(), Fail>
    requires own { Belongs profile.now seat.old }
    ensures own { Belongs profile.now seat.new }
{
    assert_eq!(rt; profile.take_job(seat), job);
    Ok(())
}

fn asks(profile: &Profile, seat: &mut ProfileSeat)
    requires own { Belongs profile.now seat.old }
    requires main { IsIncrement (program_of profile.now) }
    ensures own { Belongs profile.now seat.new }
{
    profile.ask(seat, MAIN, 1);
}

// The counts of the function, its parameter and its third label.
fn tells(
    rt: &impl Abort,
    alloc: Global,
    profile: &Profile,
    seat: &mut ProfileSeat,
    counts: (u64, u64),
    param: ParamNote,
    edge: EdgeNote,
) -> Result<(), Fail>
    requires own { Belongs profile.now seat.old }
    requires main { IsIncrement (program_of profile.now) }
    ensures own { Belongs profile.now seat.new }
{
    let snapshot = profile.snapshot(alloc, seat, MAIN)?;
    assert_eq!(rt; (snapshot.calls, snapshot.fails), counts);
    assert_eq!(rt; snapshot.params.items(), [param].as_slice());
    assert_eq!(rt; snapshot.edges.items().get(2).copied(), Some(edge));
    Ok(())
}

#[test]
fn a_level_that_is_asked_is_taken_once(rt: HostRuntime) -> Result<(), Fail> {
    let alloc = rt.alloc();
    let (profile, mut seat) = begin(&rt, alloc)?;
    takes(&rt, &profile, &mut seat, JobAnswer::NoneAsked)?;
    assert_eq!(rt; enter(&profile, &mut seat, 8), 8);
    asks(&profile, &mut seat);
    let param = ParamNote { last: 4, agreed: 8 };
    tells(&rt, alloc, &profile, &mut seat, (8, 0), param, NO_EDGE)?;
    let job = JobAnswer::Job { f: MAIN, level: 1 };
    takes(&rt, &profile, &mut seat, job)?;
    takes(&rt, &profile, &mut seat, JobAnswer::NoneAsked)
}

// Another seat enters the function twice and finishes.
fn enter_elsewhere(profile: &Profile, seat: &mut ProfileSeat) -> u64
    requires own { Belongs profile.now seat.old }
    requires main { IsIncrement (program_of profile.now) }
    requires first { (seat.old.first ≡ true) × (seat.old.splits ≡ 0) }
    ensures own { Belongs profile.now seat.new }
{
    let mut other = profile.split(seat);
    is_sent(&other);
    let count = enter(profile, &mut other, 2);
    profile.finish_caller(&mut other);
    profile.join(seat, other);
    count
}

#[test]
fn seats_that_are_joined_have_counted_together(rt: HostRuntime) -> Result<(), Fail> {
    let (profile, mut seat) = begin(&rt, rt.alloc())?;
    is_shared(&profile);
    assert_eq!(rt; enter_elsewhere(&profile, &mut seat), 2);
    assert_eq!(rt; enter(&profile, &mut seat, 3), 5);
    assert_eq!(rt; profile.finished(&mut seat), 1);
    Ok(())
}

// The parameter is expected to be -5, and the third label's then edge never to be taken. It is taken once.
fn hint(profile: &Profile, seat: &mut ProfileSeat)
    requires own { Belongs profile.now seat.old }
    requires main { IsIncrement (program_of profile.now) }
    ensures own { Belongs profile.now seat.new }
{
    profile.set_guess(seat, MAIN, 0, -5);
    profile.set_cold(seat, MAIN, Label(2), Edge::Then);
    profile.branched(seat, MAIN, Label(2), Edge::Then);
}

// A version fails. A higher level is taken than is asked for.
fn fail_and_mark(profile: &Profile, seat: &mut ProfileSeat) -> u64
    requires own { Belongs profile.now seat.old }
    requires main { IsIncrement (program_of profile.now) }
    ensures own { Belongs profile.now seat.new }
{
    profile.mark_taken(seat, MAIN, 2);
    asks(profile, seat);
    profile.failed(seat, MAIN)
}

#[test]
fn hints_are_told_as_if_they_were_counted(rt: HostRuntime) -> Result<(), Fail> {
    let alloc = rt.alloc();
    let (profile, mut seat) = begin(&rt, alloc)?;
    hint(&profile, &mut seat);
    assert_eq!(rt; fail_and_mark(&profile, &mut seat), 1);
    takes(&rt, &profile, &mut seat, JobAnswer::NoneAsked)?;
    let param = ParamNote {
        last: -5,
        agreed: 4,
    };
    let edge = EdgeNote {
        then_count: 1,
        else_count: 8,
    };
    tells(&rt, alloc, &profile, &mut seat, (0, 1), param, edge)
}
