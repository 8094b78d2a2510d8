//! The line that the program prints for a status.

ghost use Rattle.std.specs.Prelude.{◌≡◌, ◌≢◌, ◌++◌, None, IfOk, codes, decimal};
ghost use Rattle.cj_driver.specs.Lines.{kind_text, refused_text, status_text};

use crate::finish::Finish;
use cj_ir::NoMemory;
use cj_tokens::{Kind, Refused};
use itoa::Buffer;
use std::alloc::Global;

/// The line of a status that is no success, with its line feed: `usage: ..` for 2, `line L: KIND` for 3,
/// `read fault` for 4, `no memory` for 6, `too long` for 7. Nothing for 0 and 5.
#[tactic(auto, unfolding(crate::specs::Lines::status_text))]
pub fn fault_line(alloc: Global, finish: &Finish) -> Result<Vec<u8>, NoMemory>
    ensures { IfOk result (λ line. line.items ≡ status_text finish.now.status finish.now.refused) }
{
    if finish.status == 3 {
        return refused_line(alloc, finish.refused);
    }
    let line = Vec::from_slice(alloc, status_line(finish.status))?;
    Ok(line)
}

#[tactic(auto, unfolding(crate::specs::Lines::status_text))]
fn status_line(status: u8) -> &'static [u8]
    requires { status ≢ 3 }
    ensures { result.now ≡ status_text status None }
{
    match status {
        2 => {
            b"usage: corejit alone [stats] | replay [stats] | format | bench N [CALLERS WORKERS] | run CALLERS WORKERS\n"
        }
        4 => b"read fault\n",
        6 => b"no memory\n",
        7 => b"too long\n",
        _ => b"",
    }
}

#[tactic(auto, unfolding(crate::specs::Lines::refused_text))]
fn refused_line(alloc: Global, refused: Option<Refused>) -> Result<Vec<u8>, NoMemory>
    ensures { IfOk result (λ line. line.items ≡ refused_text refused) }
{
    let Some(refused) = refused else {
        return Ok(Vec::new(alloc));
    };
    let mut number = Buffer::new();
    let mut line = Vec::from_slice(alloc, b"line ")?;
    line.extend_from_slice(number.format(refused.line).as_bytes())?;
    line.extend_from_slice(b": ")?;
    line.extend_from_slice(kind_name(refused.kind))?;
    line.extend_from_slice(b"\n")?;
    Ok(line)
}

#[tactic(auto, unfolding(crate::specs::Lines::kind_text))]
fn kind_name(kind: Kind) -> &'static [u8]
    ensures { result.now ≡ kind_text kind }
{
    match kind {
        Kind::Character => b"Character",
        Kind::Number => b"Number",
        Kind::Syntax => b"Syntax",
        Kind::TooMany => b"TooMany",
        Kind::NameTwice => b"NameTwice",
        Kind::LabelTwice => b"LabelTwice",
        Kind::NoEntry => b"NoEntry",
        Kind::NoRegister => b"NoRegister",
        Kind::NoLabel => b"NoLabel",
        Kind::NoFunction => b"NoFunction",
        Kind::Arguments => b"Arguments",
        Kind::NotCond => b"NotCond",
        Kind::Range => b"Range",
    }
}
