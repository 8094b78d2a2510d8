//! The top calls: from the words of a command line, a source and a sink to reports and a status.
#![tactic(auto)]

mod advices;
pub mod command;
pub mod finish;
pub mod finishing;
pub mod jobs;
pub mod lines;
pub mod one_thread;
pub mod reading;
pub mod team;
pub mod threads;
pub mod words;

pub use advices::advice;
pub use cj_alone::alone_with;
pub use cj_records::Store;
pub use cj_roles::run_roles;
pub use command::{Command, Job, Task};
pub use finish::{Finish, Made};
pub use lines::fault_line;
pub use one_thread::{answer_without_words, top_alone};
pub use team::{Team, TeamCommand};
pub use threads::top;
pub use words::{WordsError, command_words};
