//! The terminals of the grammar.

/// What a token is to the grammar: a name, a number or a text; one of the keywords, which have the names of
/// their spelling; one of the marks; the end of the input; or a lexical offence, which no rule has.
#[derive(Clone, Copy, Debug, PartialEq, Eq)]
pub enum Terminal {
    /// Behind the last byte.
    End,
    /// A byte that begins no token, or a text without its closing quote.
    BadCharacter,
    /// A number outside the range of an i64.
    BadNumber,
    Name,
    Number,
    Text,
    Fun,
    Nop,
    Op,
    Cond,
    Call,
    Return,
    Print,
    Load,
    Store,
    Fail,
    Neg,
    Eqz,
    Calls,
    Guess,
    Cold,
    Then,
    Else,
    Warm,
    Memory,
    Limit,
    Events,
    Begin,
    Step,
    Compile,
    Anchors,
    Assume,
    Delay,
    Const,
    Inline,
    When,
    Never,
    Keep,
    /// `(`
    OpenParen,
    /// `)`
    CloseParen,
    /// `{`
    OpenBrace,
    /// `}`
    CloseBrace,
    /// `[`
    OpenBracket,
    /// `]`
    CloseBracket,
    /// `,`
    Comma,
    /// `;`
    Semicolon,
    /// `:`
    Colon,
    /// `=`
    Equals,
    /// `+`
    Plus,
    /// `-`
    Minus,
    /// `*`
    Star,
    /// `/`
    Slash,
    /// `%`
    Percent,
    /// `<`
    Less,
    /// `->`
    Arrow,
}
