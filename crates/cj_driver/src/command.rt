//! The words of the command line.

ghost use Rattle.std.specs.Prelude.{◌≡◌, map};
ghost use Rattle.std.specs.Char.{is_ascii_digit};
ghost use Rattle.std.specs.List.{list_all};
ghost use Rattle.std.specs.String.{string_bytes};
ghost use Rattle.cj_driver.specs.Commands.{is_bench_number, bench_of, command_of, command_named, command_with};

/// What the program is asked to do.
#[derive(Clone, Copy, Debug, PartialEq, Eq)]
pub enum Command {
    /// Reads a text from the source, and does this with it.
    OnText(Task),
    /// Runs the calls of the generated input of that number, and writes the summary of their reports. The source is not
    /// read.
    Bench { number: u32 },
}

/// What text is read, and what is done with it.
#[derive(Clone, Copy, Debug, PartialEq, Eq)]
pub enum Task {
    /// Reads an input: a program with a script of calls.
    OnInput(Job),
    /// Reads a replay: a program with events. Plays the events, and writes the text of the reports, with a line of counts
    /// for each where `stats` holds.
    OnReplay { stats: bool },
}

/// What is done with an input.
#[derive(Clone, Copy, Debug, PartialEq, Eq)]
pub enum Job {
    /// Runs the calls, one after the other, and writes the text of their reports, with a line of counts for each where
    /// `stats` holds.
    Alone { stats: bool },
    /// Writes the canonical text.
    Format,
}

impl Command {
    /// The command that the words are; none where they are no form of the call.
    #[tactic(auto, unfolding(crate::specs::Commands::command_of))]
    pub fn of(words: &[String]) -> Option<Command>
        ensures { result ≡ command_of (map string_bytes words.now) }
    {
        match words {
            [word] => command_named(word.as_bytes()),
            [word, next] => command_with(word.as_bytes(), next.as_str()),
            _ => None,
        }
    }
}

#[tactic(auto, unfolding(crate::specs::Commands::command_named))]
fn command_named(word: &[u8]) -> Option<Command>
    ensures { result ≡ command_named word.now }
{
    if word == "alone".as_bytes() {
        Some(Command::OnText(Task::OnInput(Job::Alone { stats: false })))
    } else if word == "format".as_bytes() {
        Some(Command::OnText(Task::OnInput(Job::Format)))
    } else if word == "replay".as_bytes() {
        Some(Command::OnText(Task::OnReplay { stats: false }))
    } else {
        None
    }
}

#[tactic(auto, unfolding(crate::specs::Commands::command_with))]
fn command_with(word: &[u8], next: &str) -> Option<Command>
    ensures { result ≡ command_with word.now next.now }
{
    if word == "bench".as_bytes() {
        bench_of(next)
    } else if next.as_bytes() != "stats".as_bytes() {
        None
    } else if word == "alone".as_bytes() {
        Some(Command::OnText(Task::OnInput(Job::Alone { stats: true })))
    } else if word == "replay".as_bytes() {
        Some(Command::OnText(Task::OnReplay { stats: true }))
    } else {
        None
    }
}

/// The bench of a number of one to six digits.
#[tactic(auto, unfolding(crate::specs::Commands::bench_of))]
pub(crate) fn bench_of(word: &str) -> Option<Command>
    ensures { result ≡ bench_of word.now }
{
    if !is_bench_number(word.as_bytes()) {
        return None;
    }
    match word.parse::<u32>() {
        Ok(number) => Some(Command::Bench { number }),
        Err(_) => None,
    }
}

fn is_bench_number(word: &[u8]) -> bool
    ensures { result ≡ is_bench_number word.now }
{
    let digits = are_digits(word);
    digits && !word.is_empty() && word.len() <= 6
}

fn are_digits(bytes: &[u8]) -> bool
    ensures { result ≡ list_all is_ascii_digit bytes.now }
{
    bytes.iter().all(|&byte| byte.is_ascii_digit())
}
