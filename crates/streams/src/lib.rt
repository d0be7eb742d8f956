// What the programs keep from one block of input to the next, and the loop over a block. What they write stands in specs/.
#![tactic(auto)]

mod taking;

use rulebook::Judge;
pub use taking::{Taking, take_block};

// How a block ended: all of it was used and more may come; or the program stopped. Nothing was done where the lent buffer
// is too short (9), or where what was kept is not well formed (10).
#[derive(Clone, Copy)]
pub enum Flow {
    GoesOn,
    Stopped,
    Short,
    Unformed,
}

// A program after a header or a block: how many bytes it wrote, how that ended, and what it keeps.
#[derive(Clone, Copy)]
pub struct Progress<S> {
    pub written: usize,
    pub flow: Flow,
    pub kept: S,
}

// What the judging program keeps: the judge, and the breaches so far.
#[derive(Clone, Copy)]
pub struct Tally {
    pub judge: Judge,
    pub breaches: u32,
}
