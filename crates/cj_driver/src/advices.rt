//! What a person reads on the standard error: what is wrong, and what to do.

use crate::finish::Finish;
use cj_tokens::Kind;

/// One line, with its line feed, for a status that is no success; nothing for 0. It is for persons: no contract speaks of
/// its text.
pub fn advice(finish: &Finish) -> &'static str {
    match finish.status {
        0 => "",
        2 => {
            "corejit: these words are no form of the call: N is one to six digits, CALLERS 1 to 4, WORKERS 0 to 4; the text is read from the standard input\n"
        }
        4 =>
            "corejit: the standard input could not be read: give a file, as in `corejit alone < text.cj`\n",
        5 =>
            "corejit: the standard output took a part only: is the device full, or the pipe closed?\n",
        6 =>
            "corejit: there was not enough memory: close other programs, or make the calls' limits smaller\n",
        7 =>
            "corejit: the text is longer than 4,194,304 bytes: split its script into several texts\n",
        _ => refusal_advice(finish),
    }
}

// What to do about the first offence of a text.
fn refusal_advice(finish: &Finish) -> &'static str {
    match finish.refused {
        Some(refused) => kind_advice(refused.kind),
        None => "",
    }
}

fn kind_advice(kind: Kind) -> &'static str {
    match kind {
        Kind::Character => {
            "corejit: that line has a byte that begins no token: drop it; a text stands between two \", a comment behind #\n"
        }
        Kind::Number => "corejit: that number is not in the range of signed 64-bit numbers\n",
        Kind::Syntax => {
            "corejit: no text goes on so: look at the form of that line; `alone` and `run` take a text with `calls`, `replay` one with `events`\n"
        }
        Kind::TooMany =>
            "corejit: a limit is passed there: split the function, the script or the text\n",
        Kind::NameTwice => "corejit: that name was declared before: rename it\n",
        Kind::LabelTwice =>
            "corejit: an earlier line of the function has that number: number the line anew\n",
        Kind::NoEntry => "corejit: a function needs a line: its first one is its entry\n",
        Kind::NoRegister => "corejit: that register is not declared: declare it behind the `;`\n",
        Kind::NoLabel => "corejit: no line of the function has that number\n",
        Kind::NoFunction => "corejit: no function of the text has that name\n",
        Kind::Arguments => "corejit: give one argument for each parameter of the function\n",
        Kind::NotCond => "corejit: `cold` names the line of a `cond`, and that line holds none\n",
        Kind::Range =>
            "corejit: that number is outside its range: docs/LANGUAGE.md lists the ranges\n",
    }
}
