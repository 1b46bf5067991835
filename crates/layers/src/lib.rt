// Layers: channels that are made over any channel.
#![tactic(auto)]

mod erased;
mod laws;
mod marks;
mod shifted;
mod worst_of;

pub use erased::Erased;
pub use laws::layers_measured;
pub use marks::Marks;
pub use shifted::Shifted;
pub use worst_of::WorstOf;
