//! The samples that are programs alone.

use cj_ir::Function;
use cj_samples::{alone, constant_zero, double, increment, jump, recursion};
use std::test::Fail;

// Whether a function is well-formed alone, and has so many lines.
fn has_lines(function: Function, count: usize) -> bool {
    match alone(function) {
        Ok(checked) => match checked.program().functions.items() {
            [function] => function.code.items().len() == count,
            _ => false,
        },
        Err(_) => false,
    }
}

#[test]
fn samples_are_well_formed(rt: HostRuntime) -> Result<(), Fail> {
    let alloc = rt.alloc();
    assert!(rt; has_lines(increment(alloc)?, 3));
    assert!(rt; has_lines(double(alloc)?, 3));
    assert!(rt; has_lines(recursion(alloc)?, 4));
    assert!(rt; has_lines(jump(alloc)?, 3));
    assert!(rt; has_lines(constant_zero(alloc, "zero")?, 1));
    Ok(())
}
