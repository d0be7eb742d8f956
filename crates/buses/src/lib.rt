// The arbiter's cycle, on a state of plain numbers that fits into registers.
#![tactic(auto)]

mod course;
mod turn;
mod walk;

ghost use Rattle.std.specs.Prelude.{◌≡◌, ◌<◌};
ghost use Rattle.rules.specs.Codes.{most_cycles};
ghost use Rattle.rules.specs.Masks.{high, single};
ghost use Rattle.rules.specs.Valid.{inputs_check};
ghost use Rattle.rules.specs.State.{WellFormed};
ghost use Rattle.rules.specs.Step.{step_of};
ghost use Rattle.signals.specs.Flags.{Stands};
ghost use Rattle.buses.specs.Buses.{phase_from, phase_number, state_from, Fit};

use rules::{Inputs, Outputs, Phase, State};
use turn::Now;

// A state but for n. A flag is 0 or 1, and the phase is one number: 0 Done, 1 to 3 Fixed with so many ready cycles to come, 4 Open, 5 Fresh.
// Stays: plain numbers, since the phase as an enum costs a quarter more in the loop (docs/DECISIONS.md, 26).
#[derive(Clone, Copy)]
pub struct Bus {
    pub g: u32,
    pub m: u32,
    pub hmastlock: u32,
    pub granted: u32,
    pub phase: u32,
    pub count: u32,
}

// Stays: the numbers are this crate's own and both types are not, so no From can stand here.
fn phase_number(p: Phase) -> u32
    ensures { result ≡ phase_number p }
{
    match p {
        Phase::Fresh => 5,
        Phase::Fixed(k) => k,
        Phase::Open => 4,
        Phase::Done => 0,
    }
}

#[tactic(auto, unfolding(crate::specs::Buses::phase_from))]
fn phase(k: u32) -> Phase
    ensures { result ≡ phase_from k }
{
    match k {
        0 => Phase::Done,
        1..=3 => Phase::Fixed(k),
        4 => Phase::Open,
        5.. => Phase::Fresh,
    }
}

// A state in plain numbers.
pub fn bus_of(s: State) -> Bus
    requires { WellFormed s }
    ensures { (state_from s.n result ≡ s) × Fit result }
{
    let p = s.phase;
    Bus {
        g: s.g,
        m: s.m,
        hmastlock: u32::from(s.hmastlock),
        granted: u32::from(s.granted),
        phase: phase_number(p),
        count: s.count,
    }
}

// The state of n masters that it stands for.
pub fn state(n: u32, b: Bus) -> State
    ensures { result ≡ state_from n b }
{
    let k = b.phase;
    State {
        n,
        g: b.g,
        m: b.m,
        hmastlock: b.hmastlock == 1,
        granted: b.granted == 1,
        phase: phase(k),
        count: b.count,
    }
}

// The bit of master i.
// Stays: bit and mask ask that the master is below 32; is_high and single_bit of signals test it, which the cycle need not.
#[tactic(auto, unfolding(rules::specs::Masks::high))]
fn bit(m: u32, i: u32) -> u32
    requires { i < 32 }
    ensures { Stands result (high m i) }
{
    (m >> i) % 2
}

// The mask of master i alone.
fn mask(i: u32) -> u32
    requires { i < 32 }
    ensures { result ≡ single i }
{
    1 << i
}

// The bus after a cycle that was taken, and what was shown in it.
#[derive(Clone, Copy)]
pub struct Went {
    pub bus: Bus,
    pub outputs: Outputs,
}

// One cycle that a step takes.
pub fn advance(n: u32, b: Bus, x: Inputs) -> Went
    requires { WellFormed (state_from n b) × Fit b × (b.count < most_cycles) × (inputs_check n x ≡ Ok tt) }
    ensures { (step_of (state_from n b) x ≡ Ok (state_from n result.bus, result.outputs)) × Fit result.bus }
{
    let now = Now {
        n,
        bus: b,
        inputs: x,
        request: bit(x.hbusreq, b.m),
    };
    let turn = now.turn();
    Went {
        bus: turn.bus,
        outputs: now.show(turn.decide),
    }
}
