//! Texts that are inputs, and texts that are none, by hand.

ghost use Rattle.std.specs.Prelude.{◌≡◌, IfOk};
ghost use Rattle.cj_tokens.specs.declared.piece.Piece.TheVariants.{Keyword};

use cj_grammar::{Shape, fits_input};
use cj_tokens::laws::places_are_told;
use cj_tokens::{Kind, Piece, Refused, Terminal, Token, Tokens};

const PROGRAM: &str = "fun main(n; r) {\n1: op r = n + 1 -> 2\n2: print r -> 3\n3: return r\n}\n";

const INSTRUCTIONS: &str =
    "fun f(at, back; regs) { 1: nop -> 2 2: op x = neg -1 -> 3 3: op x = eqz y -> 4 \
    4: op x = y -> 5 5: op x = y * 2 -> 6 6: op x = y / z -> 6 7: op x = 1 % z -> 6 8: op x = 1 = z -> 6 \
    9: op x = 1 < z -> 6 10: op x = 1 - z -> 6 11: cond y -> 1, 2 12: call x = f() -> 1 \
    13: call x = f(1, y, 3) -> 1 14: load x = [y] -> 1 15: store [1] = y -> 1 16: fail \"no\" } \
    fun g(; a) { } fun h(a, b) { }";

fn refused(line: u32, kind: Kind) -> Result<(), Refused> {
    Err(Refused { line, kind })
}

#[test]
fn functions_in_front(rt: HostRuntime) {
    let rows = [
        (PROGRAM, Ok(()), Terminal::End),
        (INSTRUCTIONS, Ok(()), Terminal::End),
        ("fun f() { } calls junk", Ok(()), Terminal::Calls),
        ("fun f() { }\n$", Ok(()), Terminal::BadCharacter),
        ("", refused(1, Kind::Syntax), Terminal::End),
        (
            "fun f() { }\nfun g() {\n1: nop 2\n}",
            refused(3, Kind::Syntax),
            Terminal::Fun,
        ),
        (
            "fun f() {\n1: op x = y +\n99999999999999999999",
            refused(3, Kind::Number),
            Terminal::Fun,
        ),
        (
            "fun f() {\n$ 5 5",
            refused(2, Kind::Character),
            Terminal::Fun,
        ),
        (
            "fun f() {\n1: fail\n\"abc\n",
            refused(3, Kind::Character),
            Terminal::Fun,
        ),
        ("fun f(a, b,) {", refused(1, Kind::Syntax), Terminal::Fun),
        ("fun f(;) {", refused(1, Kind::Syntax), Terminal::Fun),
        ("\nfun keep() { }", refused(2, Kind::Syntax), Terminal::Fun),
    ];
    for (text, wanted, next) in rows {
        let mut tokens = Tokens::of(text.as_bytes());
        assert_eq!(rt; tokens.shape(), wanted, "of {text:?}");
        assert_eq!(rt; tokens.peek(), next, "behind {text:?}");
    }
}

// The token behind a function: where it stands is proved.
fn behind_a_function() -> Result<Token, Refused>
    ensures { IfOk result (λ token. token ≡ record { line = 2; start = 10; end = 15; what = Keyword }) }
{
    let mut tokens = Tokens::of(b"fun f(){}\ncalls");
    match tokens.shape() {
        Ok(()) => {
            places_are_told(&tokens);
            tokens.next()
        }
        Err(refused) => Err(refused),
    }
}

#[test]
fn places_behind_functions(rt: HostRuntime) {
    let calls = Token {
        line: 2,
        start: 10,
        end: 15,
        what: Piece::Keyword,
    };
    assert_eq!(rt; behind_a_function(), Ok(calls));
}

#[test]
fn inputs_to_their_end(rt: HostRuntime) {
    let rows = [
        ("calls\ncall main 4 memory 64 limit 100\n", Ok(())),
        ("calls", Ok(())),
        (
            "calls guess f n -1 cold f 2 then cold f 2 else warm f 3 call f limit 1 call f 1 -2 3 limit 1",
            Ok(()),
        ),
        ("", refused(6, Kind::Syntax)),
        ("$", refused(6, Kind::Character)),
        ("calls\ncall main\nlimit 1 junk", refused(8, Kind::Syntax)),
        (
            "calls call main memory 1 memory 2 limit 1",
            refused(6, Kind::Syntax),
        ),
        ("calls call main memory limit 1", refused(6, Kind::Syntax)),
        (
            "calls call f limit 1\nguess f n 1",
            refused(7, Kind::Syntax),
        ),
        ("calls cold f 2\nlimit", refused(7, Kind::Syntax)),
        ("calls begin main limit 1", refused(6, Kind::Syntax)),
        ("events begin main limit 1", refused(6, Kind::Syntax)),
    ];
    for (script, wanted) in rows {
        let mut text = String::new(rt.alloc());
        assert!(rt; text.push_str(PROGRAM).is_ok());
        assert!(rt; text.push_str(script).is_ok());
        assert_eq!(rt;
            fits_input(&Tokens::of(text.as_bytes())),
            wanted,
            "of {script:?}"
        );
    }
}
