// Commands out of cells, and records into cells.
#![tactic(auto)]

pub mod kinds;
pub mod reader;
pub mod records;
