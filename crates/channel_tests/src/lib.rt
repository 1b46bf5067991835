// Tests of measures, channels and layers on examples, and a measure of a user's own.
#![tactic(auto)]

mod fading;

pub use fading::Fading;

#[cfg(test)]
mod asking;
#[cfg(test)]
mod channels;
#[cfg(test)]
mod layered;
#[cfg(test)]
mod measures;
