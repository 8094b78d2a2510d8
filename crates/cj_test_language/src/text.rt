//! Texts, their canonical texts, and what these are read as.

use cj_text::{
    Kind, ParseError, Piece, Refused, Shape, Token, Tokens, canonical_text, parse, print,
    print_input, read_back, read_program, read_program_back,
};
use std::alloc::Global;
use std::process::Abort;
use std::test::Fail;

// A text in no canonical layout, with each instruction, expression and setup.
const LOOSE: &str = "# all there is
fun main(n,m;r,s){1:nop->7 7:op r=-9223372036854775808->8
8 : op r = neg n -> 9   9: op r = eqz -1 -> 10 10: op r = n+m -> 11 11: op r = n - -1 -> 12
12: op r = n*2 -> 13 13: op s = 7/m -> 14 14: op s = n%m->15 15:op s=n=m->16 16:op s=n<m->17
17: cond s -> 18 , 65535
18: call r = leaf ( ) -> 19 19: call r = pair(n, -5) -> 20
20: print r -> 21 21: load r = [ 3 ] -> 22 22: store [ n ] = r -> 23 23: return 0
65535: fail \"no, \\ # -> 1\" }
fun leaf(){ 0: return 9223372036854775807 }  fun pair(a, b) { 1: return a }
calls guess main m -3 cold main 17 else cold main 17 then warm pair 2
call main 1 -2 limit 10
call leaf memory 0 limit 1000000 # the last one";

const CANONICAL: &str = "fun main(n, m; r, s) {
1: nop -> 7
7: op r = -9223372036854775808 -> 8
8: op r = neg n -> 9
9: op r = eqz -1 -> 10
10: op r = n + m -> 11
11: op r = n - -1 -> 12
12: op r = n * 2 -> 13
13: op s = 7 / m -> 14
14: op s = n % m -> 15
15: op s = n = m -> 16
16: op s = n < m -> 17
17: cond s -> 18, 65535
18: call r = leaf() -> 19
19: call r = pair(n, -5) -> 20
20: print r -> 21
21: load r = [3] -> 22
22: store [n] = r -> 23
23: return 0
65535: fail \"no, \\ # -> 1\"
}
fun leaf() {
0: return 9223372036854775807
}
fun pair(a, b) {
1: return a
}
calls
guess main m -3
cold main 17 else
cold main 17 then
warm pair 2
call main 1 -2 memory 64 limit 10
call leaf memory 0 limit 1000000
";

const BEFORE_EVENTS: &[u8] = b"fun f() {\n1: return 0\n}\nevents";

const EVENTS: Token = Token {
    line: 4,
    start: 24,
    end: 30,
    what: Piece::Keyword,
};

#[test]
fn canonical_texts_are_read_as_what_they_print(rt: HostRuntime) -> Result<(), Fail> {
    let alloc = rt.alloc();
    let text = canonical_text(alloc, LOOSE.as_bytes())?;
    assert_eq!(rt; text.as_slice(), CANONICAL.as_bytes());
    let same = canonical_text(alloc, CANONICAL.as_bytes())?;
    assert_eq!(rt; same.as_slice(), CANONICAL.as_bytes());

    let input = parse(alloc, LOOSE.as_bytes())?;
    let again = read_back(alloc, &input)?;
    let printed = print_input(alloc, &again)?;
    assert_eq!(rt; printed.as_slice(), CANONICAL.as_bytes());

    let program = read_program_back(alloc, &input.checked)?;
    let functions = print(alloc, &program)?;
    let expected = print(alloc, &input.checked)?;
    assert_eq!(rt; functions.as_slice(), expected.as_slice());

    let refused = ParseError::Refused(Refused {
        line: 2,
        kind: Kind::Syntax,
    });
    let answer = canonical_text(alloc, b"fun main() { 1: return 0 }\nfun");
    assert!(rt; matches!(answer, Err(error) if error == refused));
    Ok(())
}

#[test]
fn functions_are_gone_past(rt: HostRuntime) -> Result<(), Fail> {
    let mut tokens = Tokens::of(BEFORE_EVENTS);
    assert_eq!(rt; tokens.shape(), Ok(()));
    assert_eq!(rt; tokens.next(), Ok(EVENTS));
    Ok(())
}

#[test]
fn functions_are_read(rt: HostRuntime) -> Result<(), Fail> {
    let mut tokens = Tokens::of(BEFORE_EVENTS);
    let mut ahead = tokens;
    assert_eq!(rt; ahead.shape(), Ok(()));
    let program = read_program(rt.alloc(), &mut tokens)?;
    assert_eq!(rt; program.program().functions.items().len(), 1);
    assert_eq!(rt; tokens.next(), Ok(EVENTS));
    Ok(())
}

#[test]
fn what_begins_no_functions_is_refused(rt: HostRuntime) -> Result<(), Fail> {
    let mut tokens = Tokens::of(b"calls\nevents");
    assert!(rt; tokens.next().is_ok());
    let refused = Refused {
        line: 2,
        kind: Kind::Syntax,
    };
    assert_eq!(rt; tokens.shape(), Err(refused));
    Ok(())
}
