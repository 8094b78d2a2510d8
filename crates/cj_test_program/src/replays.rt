//! Worked replays, from bytes to bytes.

use crate::checks::{all_write, check};
use std::test::Fail;

const DOUBLE: &str = "fun main(n; r) { 1: op r = n * 2 -> 2 2: print r -> 3 3: return r }";

const COLD_BRANCH: &str =
    "fun main(n) { 1: cond n -> 2, 3 2: print 1 -> 4 3: print 2 -> 4 4: return n }";

const TWO_CALLS: &str = "fun main(n; r) { 1: call r = mid(n) -> 2 2: return r }
    fun mid(x; y) { 1: call y = low(x) -> 2 2: op y = y + 1 -> 3 3: return y }
    fun low(z) { 1: print z -> 2 2: return z }";

const SUM: &str = "fun sum(k; r) { 1: cond k -> 2, 4 2: op r = k - 1 -> 3 3: call r = sum(r) -> 5
    4: return 0 5: op r = r + k -> 6 6: return r }";

const ACCUMULATOR: &str =
    "fun main(n; r) { 1: cond n -> 2, 5 2: call r = acc(n) -> 3 3: print r -> 4
    4: op n = n - 1 -> 1 5: return r }
    fun acc(x; t) { 1: op t = t + x -> 2 2: return t }";

const TWICE: &str =
    "fun main(n; r) { 1: call r = twice(n) -> 2 2: call r = twice(r) -> 3 3: return r }
    fun twice(x) { 1: op x = x * 2 -> 2 2: return x }";

const ZERO_DIVISOR: &str = "fun main(; r) { 1: op r = 7 / 0 -> 2 2: return r }";

// Programs, events, and what is written with counts.
const PLAYS: &[(&str, &str, &str)] = &[
    // a guard holds and fails
    (
        DOUBLE,
        "compile main { anchors 0 assume 3 when 0 = 5 }
        begin main 5 limit 100 begin main 6 limit 100",
        "call 1\n10\nreturn 10\nturns 4 base 3 fails 0\n\
        call 2\n12\nreturn 12\nturns 4 base 3 fails 1\n",
    ),
    (
        DOUBLE,
        "compile main { anchors 0 1 assume 3 when 0 = 5, 1 = 0 }
        begin main 5 limit 100 begin main 6 limit 100",
        "call 1\n10\nreturn 10\nturns 4 base 3 fails 0\n\
        call 2\n12\nreturn 12\nturns 4 base 3 fails 1\n",
    ),
    // a delayed Assume takes its turn back
    (
        COLD_BRANCH,
        "compile main { anchors 0 delay 4 0 2 when never }
        begin main 0 limit 100 begin main 1 limit 100",
        "call 1\n2\nreturn 0\nturns 5 base 3 fails 1\n\
        call 2\n1\nreturn 1\nturns 3 base 3 fails 0\n",
    ),
    (
        COLD_BRANCH,
        "compile main { anchors 0 delay 4 0 1 3 when never } begin main 0 limit 100",
        "call 1\n2\nreturn 0\nturns 3 base 3 fails 0\n",
    ),
    // two inlined frames are built anew
    (
        TWO_CALLS,
        "compile main { inline 0 inline 2 anchors 6 assume 7 when never }
        begin main 5 limit 100",
        "call 1\n5\nreturn 6\nturns 8 base 7 fails 1\n",
    ),
    // a recursive sum is inlined once
    (
        SUM,
        "compile sum { inline 2 const } begin sum 3 limit 100",
        "call 1\nreturn 6\nturns 17 base 17 fails 0\n",
    ),
    // an inlined accumulator begins at 0
    (
        ACCUMULATOR,
        "compile main { inline 1 const } begin main 2 limit 1000",
        "call 1\n2\n1\nreturn 1\nturns 14 base 14 fails 0\n",
    ),
    // a run enters what was compiled meanwhile
    (
        TWICE,
        "begin main 3 limit 100 step 1 2 compile twice { const }",
        "call 1\nreturn 12\nturns 7 base 7 fails 0\n",
    ),
    // a zero divisor is not folded
    (
        ZERO_DIVISOR,
        "compile main { const } begin main limit 10",
        "call 1\nfault divide\nturns 1 base 1 fails 0\n",
    ),
    // runs go on in turn
    (
        TWICE,
        "begin main 3 limit 100 begin main 4 limit 100
        step 2 1 step 1 2 compile twice { const } step 2 2 step 1 100",
        "call 1\nreturn 12\nturns 7 base 7 fails 0\n\
        call 2\nreturn 16\nturns 7 base 7 fails 0\n",
    ),
];

#[test]
fn replays_are_played(rt: HostRuntime) -> Result<(), Fail> {
    let alloc = rt.alloc();
    all_write(&rt, alloc, &["replay", "stats"], " events ", PLAYS)?;
    // counts are written where they are asked for
    let input = [DOUBLE, " events begin main 5 memory 9 limit 100"];
    check(
        &rt,
        alloc,
        &["replay"],
        &input,
        0,
        "call 1\n10\nreturn 10\n",
    )?;
    let input = ["fun main() { 1: return 0 } events\nstep 1 1"];
    check(&rt, alloc, &["replay"], &input, 3, "line 2: Range\n")
}
