//! Tests of versions in the making: drafts, their spelling in words, reading them again, and the plan.
#![tactic(auto)]

#[cfg(test)]
mod codec;
#[cfg(test)]
mod draft;
#[cfg(test)]
mod plan;
#[cfg(test)]
mod spelling;
