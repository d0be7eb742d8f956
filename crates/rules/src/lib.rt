// The types of document 01. What each of its sentences means stands in specs/, over these.
#![tactic(auto)]

ghost use Rattle.std.specs.Prelude.{◌≡◌};
ghost use Rattle.rules.specs.Refusals.{number_of};

// The refusals, in the order of their numbers, 1 to 14.
#[derive(Clone, Copy)]
pub enum Refusal {
    Masters = 1,
    Header,
    Shape,
    Value,
    NotBuilt,
    Absent,
    Owner,
    Full,
    Short,
    State,
    Nobody,
    Dump,
    Time,
    Variable,
}

// The number of a refusal.
impl From<Refusal> for u32 {
    ghost from_gives = { λ r k. k ≡ number_of r };

    fn from(r: Refusal) -> u32 {
        r as u32
    }
}

// The sorts of burst codes. A fixed burst carries its number of beats.
#[derive(Clone, Copy)]
pub enum Burst {
    Single,
    Unspecified,
    Fixed(u32),
    NotBuilt,
    NoCode,
}

// Where the owner stands in its access. Fixed holds the ready cycles that are still to come.
#[derive(Clone, Copy)]
pub enum Phase {
    Fresh,
    Fixed(u32),
    Open,
    Done,
}

// The arbiter's state.
#[derive(Clone, Copy)]
pub struct State {
    pub n: u32,
    pub g: u32,
    pub m: u32,
    pub hmastlock: bool,
    pub granted: bool,
    pub phase: Phase,
    pub count: u32,
}

// What the masters and the slave drive in a cycle, as the page's five columns.
// Stays: numbers, here and in Outputs, since a column may hold what no flag, code or mask is, which refusal 4 answers.
#[derive(Clone, Copy, Default, PartialEq, Eq)]
pub struct Inputs {
    pub hbusreq: u32,
    pub hlock: u32,
    pub hready: u32,
    pub htrans: u32,
    pub hburst: u32,
}

// What the arbiter drives in a cycle, as the page's six columns. A flag is 0 or 1.
#[derive(Clone, Copy, Default, PartialEq, Eq)]
pub struct Outputs {
    pub hgrant: u32,
    pub hmaster: u32,
    pub hmastlock: u32,
    pub decide: u32,
    pub granted: u32,
    pub busreq: u32,
}

// A recorded cycle: the eleven columns of a trace line.
#[derive(Clone, Copy, Default, PartialEq, Eq)]
pub struct Cycle {
    pub inputs: Inputs,
    pub outputs: Outputs,
}

// What a decision needs of a cycle: HREADY, and what the owner of the bus drives.
#[derive(Clone, Copy)]
pub struct Seen {
    pub ready: bool,
    pub nonseq: bool,
    pub burst: Burst,
    pub request: bool,
    pub lock: bool,
}
