//! Where a token stands among bytes, and how far it goes.

ghost use Rattle.std.specs.Prelude.{◌≡◌, ◌≤◌, ◌<◌, ◌+◌, length, drop, true, slice_index};
ghost use Rattle.std.specs.List.{prefix_len};
ghost use Rattle.std.specs.Char.{is_ascii_digit};
ghost use Rattle.cj_ir.specs.Texts.{is_letter_or_digit, is_text_byte};
ghost use Rattle.cj_tokens.specs.Bytes.{is_blank, is_in_line, is_closed};
ghost use Rattle.cj_tokens.specs.Spellings.{begins_number};
ghost use Rattle.cj_tokens.specs.Scan.{items, items_from, size_of, is_start};
ghost use Rattle.cj_tokens.specs.Seen.{seen, placed};
ghost use Rattle.cj_tokens.specs.Words.{is_well};

use crate::lexeme::Scanned;
use crate::spelling::{begins_number, lexeme};
use cj_ir::texts::{is_letter, is_letter_or_digit, is_text_byte};

/// The first token from a place on, which stands in a line.
pub(crate) fn scan<'a>(bytes: &'a [u8], from: usize, line: u32) -> Scanned<'a>
    requires { from ≤ length bytes.now }
    ensures found { items 0 line from (drop from bytes.now) ≡ items_from bytes.now (placed result) }
    ensures within { result.stop ≤ length bytes.now }
    ensures well { is_well (seen result.lexeme) ≡ true }
{
    let (start, line) = skip(bytes, from, line);
    let rest = &bytes[start..];
    let size = size(rest);
    Scanned {
        lexeme: lexeme(&rest[..size], line),
        start,
        stop: start + size,
    }
}

// Where the next token begins, or the end, and in which line.
#[tactic(auto, using(crate::proofs::Skips::at_break, crate::proofs::Skips::at_blank, crate::proofs::Skips::at_comment))]
fn skip(bytes: &[u8], from: usize, line: u32) -> (usize, u32)
    requires { from ≤ length bytes.now }
    ensures same { items 0 line from (drop from bytes.now) ≡ items 0 result.1 result.0 (drop result.0 bytes.now) }
    ensures within { result.0 ≤ length bytes.now }
    ensures stands { result.0 < length bytes.now → is_start (slice_index bytes.now result.0) ≡ true }
{
    let mut at = from;
    let mut line = line;
    'more: while at < bytes.len() {
        let byte = bytes[at];
        if byte == b'\n' {
            at += 1;
            line = line.saturating_add(1);
        } else if is_blank(byte) {
            at += 1;
        } else if byte == b'#' {
            at += 1 + comment_size(&bytes[at + 1..]);
        } else {
            break;
        }
    }
    (at, line)
}

fn is_blank(byte: u8) -> bool
    ensures { result ≡ is_blank byte }
{
    matches!(byte, b' ' | b'\t' | b'\r')
}

fn comment_size(bytes: &[u8]) -> usize
    ensures size { result ≡ prefix_len is_in_line bytes.now }
    ensures within { result ≤ length bytes.now }
{
    bytes.iter().take_while(|&&byte| byte != b'\n').count()
}

// How many bytes the token has that stands at the front of the bytes.
#[tactic(auto, unfolding(crate::specs::Scan::size_of))]
fn size(bytes: &[u8]) -> usize
    ensures size { result ≡ size_of bytes.now }
    ensures within { result ≤ length bytes.now }
{
    let [first, rest @ ..] = bytes else {
        return 0;
    };
    if is_letter(*first) {
        1 + word_size(rest)
    } else if begins_number(*first, rest) {
        1 + number_size(rest)
    } else if *first == b'-' && rest.first() == Some(&b'>') {
        2
    } else if *first == b'"' && is_closed(rest) {
        2 + text_size(rest)
    } else {
        1
    }
}

fn word_size(bytes: &[u8]) -> usize
    ensures size { result ≡ prefix_len is_letter_or_digit bytes.now }
    ensures within { result ≤ length bytes.now }
{
    bytes
        .iter()
        .take_while(|&&byte| is_letter_or_digit(byte))
        .count()
}

fn number_size(bytes: &[u8]) -> usize
    ensures size { result ≡ prefix_len is_ascii_digit bytes.now }
    ensures within { result ≤ length bytes.now }
{
    bytes
        .iter()
        .take_while(|byte| byte.is_ascii_digit())
        .count()
}

fn text_size(bytes: &[u8]) -> usize
    ensures size { result ≡ prefix_len is_text_byte bytes.now }
    ensures within { result ≤ length bytes.now }
{
    bytes.iter().take_while(|&&byte| is_text_byte(byte)).count()
}

// Whether the bytes behind an opening quote go on to the closing one.
fn is_closed(bytes: &[u8]) -> bool
    ensures { result ≡ is_closed bytes.now }
{
    let inside = text_size(bytes);
    bytes.get(inside) == Some(&b'"')
}
