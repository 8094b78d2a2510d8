//! The labels of a list.

ghost use Rattle.std.specs.Prelude.{◌≡◌, []};
ghost use Rattle.cj_tokens.specs.Left.{left, source};
ghost use Rattle.cj_grammar.specs.Readers.{Gives};
ghost use Rattle.cj_events.specs.Reading.{label_at, labels_at};

use crate::judge::listed_label;
use cj_ir::{Label, Labels};
use cj_tokens::{ParseError, Terminal, Tokens};
use std::alloc::Global;

/// A label behind so many others.
#[tactic(auto, unfolding(crate::specs::Reading::label_at))]
fn read_label(tokens: &mut Tokens<'_>, earlier: usize) -> Result<Label, ParseError>
    ensures gives { Gives result (left tokens.new) (label_at earlier (left tokens.old)) }
    ensures source { source tokens.new ≡ source tokens.old }
{
    let token = tokens.take();
    listed_label(earlier, token)
}

/// The labels that stand next.
#[tactic(auto, using(crate::proofs::LabelTurns::labels_turn, crate::proofs::LabelTurns::labels_fail, crate::proofs::LabelTurns::labels_stop, crate::proofs::LabelTurns::label_shorter))]
pub fn read_labels(alloc: Global, tokens: &mut Tokens<'_>) -> Result<Labels, ParseError>
    ensures gives { Gives result (left tokens.new) (labels_at [] (left tokens.old)) }
    ensures source { source tokens.new ≡ source tokens.old }
{
    let mut labels = Labels::new(alloc);
    'labels: while tokens.is_at(Terminal::Number) {
        let label = match read_label(tokens, labels.items().len()) {
            Ok(label) => label,
            Err(error) => return Err(error),
        };
        match labels.push(label) {
            Ok(()) => {}
            Err(_) => return Err(ParseError::NoMemory),
        }
    }
    Ok(labels)
}
