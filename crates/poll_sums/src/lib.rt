// The sums of a poll: what its records add to them, and how they are written as its table.
#![tactic(auto)]

pub mod adding;
pub mod writing;

// A cell of a table, and where it stands among the sums.
#[derive(Clone, Copy)]
pub struct Cell {
    pub row: usize,
    pub column: usize,
    pub at: usize,
}
