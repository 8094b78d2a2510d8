//! What the tokens are like, as facts without code.

ghost use Rattle.std.specs.Prelude.{◌≡◌, ◌<◌, ◌≤◌, length, take, drop, max};
ghost use Rattle.cj_tokens.specs.Left.{left, source, stream};
ghost use Rattle.cj_tokens.specs.Scan.{size_of, last_items};

use crate::tokens::Tokens;

/// The token at the front of some bytes is the longest there: a longer front of them begins with the same token.
#[tactic(auto, using(crate::proofs::Longest::longest))]
pub fn token_is_longest(bytes: &[u8], size: usize)
    requires longer { size_of bytes.now < size }
    requires within { size ≤ length bytes.now }
    ensures { size_of (take size bytes.now) ≡ size_of bytes.now }
{}

/// The text, and how many of its tokens are left, tell which these are, and so their places: the last ones. The end
/// stays where it is taken.
pub fn places_are_told(tokens: &Tokens<'_>)
    ensures { stream tokens.now ≡ last_items (max 1 (length (left tokens.now))) (source tokens.now) }
{}

/// Where the text is kept, and what is left stands behind so many of the tokens before, the places are those behind
/// as many.
pub fn places_are_kept(old: &Tokens<'_>, new: &Tokens<'_>, passed: usize)
    requires source { source new.now ≡ source old.now }
    requires left { left new.now ≡ drop passed (left old.now) }
    requires more { passed < length (left old.now) }
    ensures { stream new.now ≡ drop passed (stream old.now) }
{}
