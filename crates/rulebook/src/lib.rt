// The rules, and what the judge keeps from one cycle to the next. What each rule means stands in specs/.
#![tactic(auto)]

use rules::{Cycle, Refusal};

// In the order of the report.
#[derive(Clone, Copy)]
pub enum Rule {
    A1,
    A2,
    A3,
    A4,
    A5,
    A6,
    A7,
    A8,
    A9,
    G1,
    G2,
    G3,
    G4,
    G5,
    G6,
    G7,
    G8,
    G9,
    G10,
    G11,
    G12,
}

// The watch of an access: none, G2's, or G3's with the ready cycles that are left.
#[derive(Clone, Copy)]
pub enum Watch {
    Nothing,
    OnG2,
    OnG3(u32),
}

// The judge's state: n, the cycles taken, the previous cycle, the run lengths of A1 and A2, whether the access has opened,
// its watch, and the lost decisions of each of sixteen masters.
#[derive(Clone, Copy)]
pub struct Judge {
    pub n: u32,
    pub count: u32,
    pub previous: Cycle,
    pub locked: u32,
    pub waited: u32,
    pub opened: bool,
    pub watch: Watch,
    pub lost: [u32; 16],
}

// The answer of a start.
// Stays: the judge of no masters beside refusal 1 is promised too (`wanted` in specs/Refused.antt), and `streaming` begins with it.
#[derive(Clone, Copy)]
pub struct Started {
    pub judge: Judge,
    pub verdict: Result<(), Refusal>,
}

// The answer of a step: the new state, the verdict, and for each rule, in the order of the report, whether it is charged.
// Stays: the judge comes back with either verdict, so both variants of a Result would hold it; the promises name these three fields.
#[derive(Clone, Copy)]
pub struct Judgement {
    pub judge: Judge,
    pub verdict: Result<(), Refusal>,
    pub charged: [bool; 21],
}
