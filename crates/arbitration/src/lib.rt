// The arbiter of document 01, one cycle at a time: the state goes in by value and comes back.
#![tactic(auto)]

ghost use Rattle.std.specs.Prelude.{◌≡◌, ◌<◌};
ghost use Rattle.rules.specs.Codes.{most_cycles};
ghost use Rattle.rules.specs.Valid.{inputs_check};
ghost use Rattle.rules.specs.State.{reset_of, phase_ok, well_formed, WellFormed};
ghost use Rattle.rules.specs.Step.{step_of};

use rules::{Inputs, Outputs, Phase, Refusal, State};

// The state after a reset with n masters, or refusal 1.
#[tactic(auto, unfolding(rules::specs::State::reset_of))]
pub fn reset(n: u32) -> Result<State, Refusal>
    ensures { result ≡ reset_of n }
{
    if signals::masters_ok(n) {
        Ok(State {
            n,
            g: 0,
            m: 0,
            hmastlock: false,
            granted: false,
            phase: Phase::Fresh,
            count: 0,
        })
    } else {
        Err(Refusal::Masters)
    }
}

#[tactic(auto, unfolding(rules::specs::State::phase_ok))]
fn phase_ok(p: Phase, granted: bool, lock: bool) -> bool
    ensures { result ≡ phase_ok p granted lock }
{
    match p {
        Phase::Fresh => true,
        Phase::Fixed(k) => (1 <= k) & (k <= 3) & !granted,
        Phase::Open => !granted & lock,
        Phase::Done => true,
    }
}

// Whether a state is well formed.
#[tactic(auto, unfolding(rules::specs::State::well_formed))]
pub fn well_formed(s: State) -> bool
    ensures { result ≡ well_formed s }
{
    let masters = signals::masters_ok(s.n);
    let phase = phase_ok(s.phase, s.granted, s.hmastlock);
    masters & (s.g < s.n) & (s.m < s.n) & (s.granted | (s.g == s.m)) & phase & (s.count <= 1000000)
}

// A cycle of a well-formed state below the count limit, whose inputs are valid for n.
fn take(s: State, x: Inputs) -> (State, Outputs)
    requires { WellFormed s × (s.count < most_cycles) × (inputs_check s.n x ≡ Ok tt) }
    ensures { step_of s x ≡ Ok result }
{
    let went = buses::advance(s.n, buses::bus_of(s), x);
    (buses::state(s.n, went.bus), went.outputs)
}

// One cycle: the state after it and what the arbiter drove, or the first refusal of 10, 8, 4, 5, 6 with the state as it came.
pub fn step(s: State, x: Inputs) -> Result<(State, Outputs), (Refusal, State)>
    ensures { result ≡ step_of s x }
{
    if !well_formed(s) {
        return Err((Refusal::State, s));
    }
    if 1000000 <= s.count {
        return Err((Refusal::Full, s));
    }
    match signals::check_inputs(s.n, x) {
        Ok(()) => Ok(take(s, x)),
        Err(r) => Err((r, s)),
    }
}
