//! Tests of what threads share: the code table, the profile, sessions, workers and roles.
#![tactic(auto)]

#[cfg(test)]
mod alone;
#[cfg(test)]
mod profile;
#[cfg(test)]
mod publish;
#[cfg(test)]
mod roles;
#[cfg(test)]
mod session;
#[cfg(test)]
mod worker;
