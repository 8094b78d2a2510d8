//! The tokens of a text: which there are, and where each stands.
//!
//! A text is bytes. Blanks, tabs, carriage returns and line feeds separate tokens, and so do comments, from `#` to the
//! end of the line. Each token is the longest that stands there: a name or keyword; a number, with a `-` right before
//! its digits or without; a text between quotes; a mark. A byte that begins none, and a number that no i64 is, are
//! tokens too, which no grammar has. The end is the last token.
#![tactic(auto)]

pub mod laws;
pub mod lexeme;
pub mod piece;
pub mod refusal;
mod scan;
mod spelling;
pub mod terminal;
pub mod tokens;

pub use lexeme::Lexeme;
pub use piece::{Piece, Token};
pub use refusal::{Kind, ParseError, Refused};
pub use terminal::Terminal;
pub use tokens::{Tokens, Unfit};
