// Rows kept by columns: at each place the set of rows that clash there with X and the set that clash with Z.
#![tactic(auto)]

mod column;
pub mod mask;
mod table;

pub use column::Column;
pub use table::Columns;
