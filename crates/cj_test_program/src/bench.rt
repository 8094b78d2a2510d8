//! The bench, whose input is generated.

use crate::checks::{USAGE, check};
use std::test::Fail;

// Words of a bench that are no form of the call.
const NO_BENCHES: &[&[&str]] = &[
    &["bench", ""],
    &["bench", "1234567"],
    &["bench", "0000007"],
    &["bench", "-7"],
    &["bench", "+7"],
    &["bench", "7x"],
    &["bench", " 7"],
    &["bench", "stats"],
    &["bench"],
    &["alone", "7"],
];

#[test]
fn a_bench_has_a_number_and_reads_nothing(rt: HostRuntime) -> Result<(), Fail> {
    let text = "bench 7\ncalls 256\nreturns 256\nprints 8192\nsum 3586\n";
    check(&rt, rt.alloc(), &["bench", "7"], &["?"], 0, text)?;
    for &words in NO_BENCHES {
        check(&rt, rt.alloc(), words, &[], 2, USAGE)?;
    }
    Ok(())
}
