// A desk at which words are priced: settings are put on it line by line, and words are measured under them.
#![tactic(auto)]

mod desk;
mod line;
mod report;

pub use desk::{Desk, Reply, Report};
pub use report::{Quote, Quotes};
