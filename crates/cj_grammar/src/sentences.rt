//! Whether tokens stand as the grammar wants them, and which offence of the first class they have first.

ghost use Rattle.std.specs.Prelude.{◌≡◌, ℕ, List, OnOk, OnErr, IfErr};
ghost use Rattle.cj_tokens.specs.Ends.{HasOneEnd};
ghost use Rattle.cj_tokens.specs.Left.{left, source};
ghost use Rattle.cj_tokens.specs.Lexemes.{Lexeme};
ghost use Rattle.cj_tokens.specs.Passing.{front};
ghost use Rattle.cj_tokens.specs.Seen.{seen};
ghost use Rattle.cj_grammar.specs.Grammar.{IsSentence};
ghost use Rattle.cj_grammar.specs.Offences.{class_one, IsFirstOffence};
ghost use Rattle.cj_grammar.specs.Reading.{offence};
ghost use Rattle.cj_grammar.specs.Rules.{funs, input};
ghost use Rattle.cj_grammar.specs.Shapes.{GoesPast, HasFunctions};

use crate::functions::pass_funs;
use crate::scripts::pass_input;
use cj_tokens::{Kind, Lexeme, Refused, Terminal, Tokens, Unfit};

/// What the tokens of a text can do where there is a grammar.
pub trait Shape {
    // The tokens that are left.
    ghost lexemes: { Self → List Lexeme };

    // The text that they are of, which tells their places.
    ghost text: { Self → List ℕ };

    /// Goes past functions, up to the first token behind a function that is not `fun`. It takes no memory.
    ///
    /// Refused: where the tokens do not begin with functions. It is the line and the kind of the first token with
    /// which the tokens so far begin no functions: Character or Number where that token is a lexical offence, else
    /// Syntax. The tokens stand where they stood then.
    fn shape(&mut self) -> Result<(), Refused>
        requires { HasOneEnd (lexemes self.old) }
        ensures past { OnOk result (GoesPast (lexemes self.old) (lexemes self.new)) }
        ensures end { OnOk result (HasOneEnd (lexemes self.new)) }
        ensures text { text self.new ≡ text self.old }
        ensures first { IfErr result (λ refused. IsFirstOffence funs (lexemes self.old) refused) }
        ensures none { OnErr result (¬ (HasFunctions (lexemes self.old))) }
        ensures same { OnErr result (self.new ≡ self.old) };
}

impl Shape for Tokens<'_> {
    ghost lexemes = { left };

    ghost text = { source };

    #[tactic(auto, using(crate::proofs::ShapesLaws::funs_past, crate::proofs::ShapesLaws::funs_end, crate::proofs::ShapesLaws::funs_offence, crate::proofs::ShapesLaws::funs_none))]
    fn shape(&mut self) -> Result<(), Refused> {
        let mut ahead = *self;
        match pass_funs(&mut ahead) {
            Ok(()) => {
                *self = ahead;
                Ok(())
            }
            Err(Unfit) => Err(refusal(&ahead)),
        }
    }
}

/// Whether the tokens are an input, from the next one to the end. It takes no memory.
///
/// Refused: where they are none. It is the line and the kind of the first token with which the tokens so far begin
/// no input: Character or Number where that token is a lexical offence, else Syntax.
#[tactic(auto, using(crate::proofs::ShapesLaws::input_whole, crate::proofs::ShapesLaws::input_offence))]
pub fn fits_input(tokens: &Tokens<'_>) -> Result<(), Refused>
    requires { HasOneEnd (left tokens.now) }
    ensures whole { OnOk result (IsSentence input (left tokens.now)) }
    ensures first { IfErr result (λ refused. IsFirstOffence input (left tokens.now) refused) }
{
    let mut ahead = *tokens;
    match pass_input(&mut ahead) {
        Ok(()) => Ok(()),
        Err(Unfit) => Err(refusal(&ahead)),
    }
}

/// The refusal of the next token: its line, and Character or Number where it is a lexical offence, else Syntax.
pub fn refusal(tokens: &Tokens<'_>) -> Refused
    ensures { result ≡ offence (front (left tokens.now)) (class_one (front (left tokens.now))) }
{
    let token = tokens.front();
    Refused {
        line: token.line,
        kind: kind(&token),
    }
}

fn kind(token: &Lexeme<'_>) -> Kind
    ensures { result ≡ class_one (seen token.now) }
{
    match token.terminal {
        Terminal::BadCharacter => Kind::Character,
        Terminal::BadNumber => Kind::Number,
        _ => Kind::Syntax,
    }
}
