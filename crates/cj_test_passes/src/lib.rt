//! Tests of the passes and of what they share.
#![tactic(auto)]

#[cfg(test)]
mod anchor;
#[cfg(test)]
mod assume;
#[cfg(test)]
mod constants;
#[cfg(test)]
mod delay;
#[cfg(test)]
mod inline;
#[cfg(test)]
mod links;
#[cfg(test)]
mod passes;
#[cfg(test)]
mod sparse;
