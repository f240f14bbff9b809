// The walks: pairs and rows without partner, looked for in the sheets and written.
#![tactic(auto)]

pub mod arrivals;
pub mod due;
pub mod lone_rows;
pub mod lones;
pub mod rooms;
pub mod walks;
