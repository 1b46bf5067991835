// Channels: what each letter costs at each place, and what a word measures.
#![tactic(auto)]

mod flat;
mod laws;
mod prices;
mod table;
mod word;

pub use flat::Flat;
pub use laws::words_measured;
pub use prices::Channel;
pub use table::Table;
pub use word::measure_of;
