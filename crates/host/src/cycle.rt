// One cycle of the state in twelve bytes.
ghost use Rattle.std.specs.Prelude.{◌≡◌, ◌≤◌, MatchResult};
ghost use Rattle.rules.specs.Valid.{inputs_check};
ghost use Rattle.hosting.specs.Bytes.{bytes_state};
ghost use Rattle.hosting.specs.Calls.{output_bytes, of_lent};
ghost use Rattle.host.specs.Tests.{passes};
ghost use Rattle.host.specs.Entry.{Enters, Cycles, Small};

use octets::Held;
use rules::{Inputs, Outputs, Refusal};

// Whether a stimulus is valid for n, with few tests. Only where it is not are the tests made that name a refusal.
// Stays: few tests where all are passed (docs/DECISIONS.md, 30a); `passes` of sights tests a recorded cycle.
fn valid(n: u32, x: Inputs) -> bool
    requires { n ≤ 16 }
    ensures { result ≡ passes (inputs_check n x) }
{
    ((x.hbusreq | x.hlock) >> n == 0)
        & (x.hready <= 1)
        & (x.htrans <= 3)
        & !(x.htrans == 1)
        & (x.hburst <= 3)
        & !(x.hburst == 2)
}

// The state of a cycle that a step takes, or the first refusal of 10, 8, 4, 5, 6.
#[inline(always)]
fn enter(x: Inputs, state: &[u8; 12]) -> Result<Held, Refusal>
    ensures { Enters x state.now result }
{
    let held = octets::see(state).ok_or(Refusal::State)?;
    if 1000000 <= held.bus.count {
        return Err(Refusal::Full);
    }
    if !valid(held.n, x) {
        signals::check_inputs(held.n, x)?;
    }
    Ok(held)
}

// The outputs of a cycle, and the bytes of the state after it. A refusal changes no byte.
#[inline(always)]
pub fn run(x: Inputs, state: &mut [u8; 12]) -> Result<Outputs, Refusal>
    ensures { Cycles x state.old result state.new }
{
    let held = enter(x, state)?;
    let went = buses::advance(held.n, held.bus, x);
    octets::put(
        Held {
            n: held.n,
            bus: went.bus,
        },
        state,
    );
    Ok(went.outputs)
}

// The outputs of a cycle as numbers.
#[tactic(auto, unfolding(hosting::specs::Calls::output_bytes))]
pub fn output_bytes(o: Outputs) -> [u8; 8]
    requires { Small o }
    ensures { result ≡ output_bytes o }
{
    let [low, high, _, _] = o.hgrant.to_le_bytes();
    [
        low,
        high,
        o.hmaster as u8,
        o.hmastlock as u8,
        o.decide as u8,
        o.granted as u8,
        o.busreq as u8,
        0,
    ]
}
