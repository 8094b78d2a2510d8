//! The tokens of some texts, by hand.

use cj_tokens::piece::{Piece, Token};
use cj_tokens::refusal::{Kind, Refused};
use cj_tokens::terminal::Terminal::{
    self, Arrow, BadCharacter, BadNumber, Colon, End, Equals, Less, Minus, Name, Number, Plus, Text,
};
use cj_tokens::tokens::Tokens;

fn has_terminals(text: &str, wanted: &[Terminal]) -> bool {
    let mut tokens = Tokens::of(text.as_bytes());
    for terminal in wanted {
        if tokens.take().terminal != *terminal {
            return false;
        }
    }
    true
}

#[test]
fn words_numbers_and_marks(rt: HostRuntime) {
    let rows: &[(&str, &[Terminal])] = &[
        ("", &[End, End]),
        ("fun", &[Terminal::Fun, End]),
        (
            "keep never when",
            &[Terminal::Keep, Terminal::Never, Terminal::When, End],
        ),
        ("Fun funs _ a1_B", &[Name, Name, Name, Name, End]),
        ("return1", &[Name, End]),
        ("12ab", &[Number, Name, End]),
        ("--5", &[Minus, Number, End]),
        ("n -1", &[Name, Number, End]),
        ("n- 1", &[Name, Minus, Number, End]),
        ("->", &[Arrow, End]),
        ("-->-1", &[Minus, Arrow, Number, End]),
        (">", &[BadCharacter, End]),
        ("=<+", &[Equals, Less, Plus, End]),
        (
            "1:\r\n\t2 # 3 \" # 4\n5#",
            &[Number, Colon, Number, Number, End],
        ),
        ("\"a b\"\"\"", &[Text, Text, End]),
        ("\"abc", &[BadCharacter, Name, End]),
        ("\"a\nb\"", &[BadCharacter, Name, Name, BadCharacter, End]),
        ("\u{e9}", &[BadCharacter, BadCharacter, End]),
    ];
    for (text, wanted) in rows {
        assert!(rt; has_terminals(text, wanted), "in {text:?}");
    }
}

#[test]
fn values_of_numbers(rt: HostRuntime) {
    let rows: &[(&str, Terminal, i64)] = &[
        ("0", Number, 0),
        ("-0", Number, 0),
        ("-007", Number, -7),
        ("0000000000000000000000000000000000000042", Number, 42),
        ("9223372036854775807", Number, 9223372036854775807),
        ("9223372036854775808", BadNumber, 0),
        ("-9223372036854775808", Number, -9223372036854775808),
        ("-9223372036854775809", BadNumber, 0),
        ("99999999999999999999999999999999999999999", BadNumber, 0),
    ];
    for (text, terminal, number) in rows {
        let token = Tokens::of(text.as_bytes()).take();
        assert_eq!(rt; token.terminal, *terminal, "of {text}");
        assert_eq!(rt; token.number, *number, "of {text}");
        assert_eq!(rt; token.text, text.as_bytes());
    }
}

#[test]
fn places_and_lines(rt: HostRuntime) {
    let mut tokens = Tokens::of(b"fun x # \"\n\n \"a b\" -> -7");
    let wanted = [
        (1, 0, 3, Piece::Keyword),
        (1, 4, 5, Piece::Name),
        (3, 12, 17, Piece::Text),
        (3, 18, 20, Piece::Mark),
        (3, 21, 23, Piece::Number(-7)),
        (3, 23, 23, Piece::End),
        (3, 23, 23, Piece::End),
    ];
    for (line, start, end, what) in wanted {
        assert_eq!(rt;
            tokens.next(),
            Ok(Token {
                line,
                start,
                end,
                what
            })
        );
    }
    let mut texts = Tokens::of(b"\n\"a b\"");
    assert_eq!(rt; texts.line(), 2);
    assert_eq!(rt; texts.front().text, b"a b".as_slice());
    assert!(rt; texts.expect(Terminal::Name).is_err());
    assert!(rt; texts.expect(Text).is_ok());
    assert!(rt; texts.is_at(End));
    assert!(rt; texts.expect(End).is_ok());
    assert!(rt; texts.expect(End).is_err());
}

#[test]
fn offences_stay(rt: HostRuntime) {
    let rows = [
        ("\n\n$", 3, Kind::Character),
        ("\"a\n\"", 1, Kind::Character),
        ("# 1\n\"", 2, Kind::Character),
        ("\n9223372036854775808", 2, Kind::Number),
    ];
    for (text, line, kind) in rows {
        let mut tokens = Tokens::of(text.as_bytes());
        assert_eq!(rt; tokens.next(), Err(Refused { line, kind }), "in {text:?}");
        assert_eq!(rt; tokens.next(), Err(Refused { line, kind }), "in {text:?}");
    }
}
