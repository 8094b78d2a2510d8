//! Tests of the program, from words and source to what it writes and its status.
#![tactic(auto)]

#[cfg(test)]
mod advices;
#[cfg(test)]
mod bench;
#[cfg(test)]
mod checks;
#[cfg(test)]
mod hostile;
#[cfg(test)]
mod language;
#[cfg(test)]
mod levels;
#[cfg(test)]
mod limits;
#[cfg(test)]
mod replays;
#[cfg(test)]
mod sessions;
#[cfg(test)]
mod words;
#[cfg(test)]
mod worked;
