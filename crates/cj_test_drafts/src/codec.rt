//! Spellings written by hand: the shortest one, one with each kind of instruction and expression, and the longest.

ghost use Rattle.std.specs.Prelude.{IfOk};
ghost use Rattle.cj_spelling.specs.Ranges.{IsInRange};

use cj_codec::codes::read_body;
use cj_codec::reader::{ReadError, WordReader};
use cj_codec::*;
use cj_draft::Code;
use cj_spelling::{EncodeError, encode};
use std::alloc::Global;
use std::process::Abort;
use std::test::Fail;

const RETURN: [u64; 17] = [17, 1, 0, 0, 0, 1, 6, 1, 0, 1, 0, 0, 0, 0, 1, 0, 0];

// Whether the words spell a code, whose words they are.
fn round_trips(rt: &impl Abort, alloc: Global, words: &[u64]) -> Result<bool, Fail> {
    match decode(alloc, words)? {
        None => Ok(false),
        Some(code) => {
            let again = encode(alloc, &code)?;
            assert_eq!(rt; again.items(), words);
            Ok(true)
        }
    }
}

// A place of one base frame and no facts, with that instruction.
fn push_place(words: &mut Vec<u64>, instr: &[u64]) -> Result<(), Fail> {
    for word in instr {
        words.push(*word)?;
    }
    for word in [1, 0, 0, 0, 0, 1, 0, 0] {
        words.push(word)?;
    }
    Ok(())
}

// A code of function 63 with two registers and 15 places, and each kind of instruction and guard.
fn each_kind(alloc: Global) -> Result<Vec<u64>, Fail> {
    let mut words = vec![in alloc; 241, 1, 63, 2, 14, 15]?;
    push_place(&mut words, &[1, 14])?;
    push_place(&mut words, &[2, 1, 0, 1, u64::MAX, 0])?;
    push_place(&mut words, &[3, 2, 0, 0, 1, 1, 1, 7, 3])?;
    push_place(&mut words, &[4, 0, 0, 4, 5])?;
    push_place(&mut words, &[5, 0, 63, 2, 0, 0, 1, 5, 6])?;
    push_place(&mut words, &[6, 0, 1])?;
    push_place(&mut words, &[7, 1, 3, 7])?;
    push_place(&mut words, &[8, 1, 0, 0, 8])?;
    push_place(&mut words, &[9, 0, 0, 1, 4, 9])?;
    push_place(&mut words, &[10, 63, 255])?;
    let assume = [11, 2, 0, 1, 0, 5, 4, 2, 0, 3, 0, 1, 0, 1, 1, 2, 31, 0, 2];
    push_place(&mut words, &assume)?;
    push_place(&mut words, &[2, 1, 1, 0, 1, 0])?;
    push_place(&mut words, &[2, 1, 2, 0, 1, 0])?;
    push_place(&mut words, &[2, 1, 3, 0, 1, 0, 0, 0])?;
    // two facts, and two numbers with their points
    let last = [
        2, 1, 9, 0, 1, 1, 2, 0, 1, 0, 0, 0, 0, 1, 2, 0, 5, 1, 1, 2, 0, 1, 0, 0, 0, 0, 4, 1, 0, 0,
        0, 0,
    ];
    for word in last {
        words.push(word)?;
    }
    Ok(words)
}

// The words with another one at a place.
fn with_word(alloc: Global, words: &[u64], at: usize, word: u64) -> Result<Vec<u64>, Fail> {
    let mut changed = Vec::new(alloc);
    for (place, old) in words.iter().enumerate() {
        changed.push(if place == at { word } else { *old })?;
    }
    Ok(changed)
}

// A code of one place with that instruction and 10,920 numbers with points, 6 words each; the length is left out.
fn long_body(alloc: Global, instr: &[u64]) -> Result<Vec<u64>, Fail> {
    let mut words = vec![in alloc; 1, 0, 0, 0, 1]?;
    push_place(&mut words, instr)?;
    words.pop();
    words.push(10920)?;
    for _ in 0..10920 {
        for word in [0, 1, 0, 0, 0, 0] {
            words.push(word)?;
        }
    }
    Ok(words)
}

// The code of some words behind a length, however many they are.
fn read_long(alloc: Global, words: &[u64]) -> Result<Code, ReadError>
    ensures { IfOk result (λ code. IsInRange code) }
{
    let mut reader = WordReader { rest: words };
    match read_body(alloc, &mut reader) {
        Ok(code) => Ok(code),
        Err(error) => Err(error),
    }
}

#[test]
fn one_return_is_read_from_its_seventeen_words(rt: HostRuntime) -> Result<(), Fail> {
    let alloc = rt.alloc();
    assert!(rt; round_trips(&rt, alloc, &RETURN)?);
    assert!(rt; decode(alloc, &RETURN[..16])?.is_none());
    let longer = vec![in alloc; 17, 1, 0, 0, 0, 1, 6, 1, 0, 1, 0, 0, 0, 0, 1, 0, 0, 0]?;
    assert!(rt; decode(alloc, &longer)?.is_none());
    assert!(rt; decode(alloc, &[])?.is_none());
    Ok(())
}

#[test]
fn each_kind_round_trips_and_a_word_out_of_range_is_refused(rt: HostRuntime) -> Result<(), Fail> {
    let alloc = rt.alloc();
    let words = each_kind(alloc)?;
    assert_eq!(rt; words.len(), 241);
    for operator in 3..10 {
        let changed = with_word(alloc, &words, 195, operator)?;
        assert!(rt; round_trips(&rt, alloc, &changed)?, "operator {operator}");
    }
    let refused = [
        (0, 240),
        (0, 242),
        (1, 2),
        (2, 64),
        (3, 129),
        (3, 1),
        (4, 15),
        (5, 16),
        (5, 0),
        (6, 0),
        (6, 12),
        (7, 15),
        (8, 0),
        (8, 5),
        (9, 64),
        (10, 256),
        (11, 1),
        (12, 33),
        (13, 2),
        (18, 10),
        (35, 0),
        (62, 64),
        (63, 9),
        (129, 256),
        (139, 9),
        (144, 5),
        (151, 2),
        (154, 32),
        (226, 0),
        (235, 5),
    ];
    for (at, word) in refused {
        let changed = with_word(alloc, &words, at, word)?;
        assert!(rt; decode(alloc, &changed)?.is_none(), "{word} at {at}");
    }
    Ok(())
}

#[test]
fn a_word_more_than_65536_is_too_large(rt: HostRuntime) -> Result<(), Fail> {
    let alloc = rt.alloc();
    let mut words = vec![in alloc; 65536]?;
    for word in long_body(alloc, &[1, 0])? {
        words.push(word)?;
    }
    assert_eq!(rt; words.len(), 65536);
    assert!(rt; round_trips(&rt, alloc, &words)?);
    let body = long_body(alloc, &[6, 1, 0])?;
    assert_eq!(rt; body.len(), 65536);
    match read_long(alloc, &body) {
        Ok(code) => match encode(alloc, &code) {
            Ok(_) => assert!(rt; false, "too large"),
            Err(error) => assert_eq!(rt; error, EncodeError::TooLarge { len: 65537 }),
        },
        Err(_) => assert!(rt; false, "in range"),
    }
    Ok(())
}
