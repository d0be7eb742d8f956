// What the programs trace2vcd and vcd2trace keep from one block of input to the next. What they write stands in specs/.
#![tactic(auto)]

use rules::Cycle;

// Where a conversion stands: the masters, the cycles so far and the last of them, and the line of the input that comes next.
#[derive(Clone, Copy)]
pub struct Position {
    pub n: u32,
    pub count: u32,
    pub before: Cycle,
    pub line: u32,
}
