//! Tests of the language: its check, its texts, their readers and printers, scripts and generated programs.
#![tactic(auto)]

#[cfg(test)]
mod bench;
#[cfg(test)]
mod grammar;
#[cfg(test)]
mod ir;
#[cfg(test)]
mod reader;
#[cfg(test)]
mod samples;
#[cfg(test)]
mod script;
#[cfg(test)]
mod text;
#[cfg(test)]
mod tokens;
