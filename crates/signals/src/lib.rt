// The leaves of the model: a burst code sorted, the bits of a mask, and what is valid for n.
#![tactic(auto)]

ghost use Rattle.std.specs.Prelude.{◌≡◌, Bool, cond, ltb};
ghost use Rattle.rules.specs.Refusals.{number_of, first_of};
ghost use Rattle.rules.specs.Codes.{burst_of, no_code, not_built};
ghost use Rattle.rules.specs.Masks.{high, single, names_absent};
ghost use Rattle.rules.specs.State.{masters_ok};
ghost use Rattle.rules.specs.Valid.{inputs_too_large, outputs_too_large, inputs_not_built, inputs_absent, inputs_check, cycle_check};

use rules::{Burst, Cycle, Inputs, Outputs, Refusal};

// The number of a refusal.
pub fn number(r: Refusal) -> u32
    ensures { result ≡ number_of r }
{
    u32::from(r)
}

// n from 2 to 16.
pub fn masters_ok(n: u32) -> bool
    ensures { result ≡ masters_ok n }
{
    (2 <= n) & (n <= 16)
}

// The sort of a burst code, in one place.
// Stays: document 01 asks for one match over the code, with ranges.
pub fn burst(code: u32) -> Burst
    ensures { result ≡ burst_of code }
{
    match code {
        0 => Burst::Single,
        1 => Burst::Unspecified,
        3 => Burst::Fixed(4),
        2 | 4..=7 => Burst::NotBuilt,
        8.. => Burst::NoCode,
    }
}

fn no_code(b: Burst) -> bool
    ensures { result ≡ no_code b }
{
    matches!(b, Burst::NoCode)
}

fn not_built(b: Burst) -> bool
    ensures { result ≡ not_built b }
{
    matches!(b, Burst::NotBuilt)
}

// The bit of master i.
pub fn is_high(m: u32, i: u32) -> bool
    ensures { result ≡ high m i }
{
    if i < 32 { (m >> i) % 2 == 1 } else { false }
}

// The mask of master i alone, and 0 for a number that no mask has room for.
// Stays: 0 where no mask has room, as the clause says: the callers compare masks.
pub fn single_bit(i: u32) -> u32
    ensures { result ≡ cond (ltb i 32) (single i) 0 }
{
    if i < 32 { 1 << i } else { 0 }
}

// Whether the mask names a master not below n.
pub fn names_absent(n: u32, m: u32) -> bool
    ensures { result ≡ names_absent n m }
{
    let top = single_bit(n);
    (n < 32) & (top <= m)
}

// A choice between two values, with no branch in the caller.
pub fn pick<T: Copy>(d: bool, a: T, b: T) -> T
    ensures { result ≡ cond d a b }
{
    if d { a } else { b }
}

// Of 4, 5, 6 and 7 the first that applies.
fn first(value: bool, unbuilt: bool, absent: bool, owner: bool) -> Result<(), Refusal>
    ensures { result ≡ first_of value unbuilt absent owner }
{
    let at7 = pick(owner, Err(Refusal::Owner), Ok(()));
    let at6 = pick(absent, Err(Refusal::Absent), at7);
    let at5 = pick(unbuilt, Err(Refusal::NotBuilt), at6);
    pick(value, Err(Refusal::Value), at5)
}

#[tactic(auto, unfolding(rules::specs::Valid::inputs_too_large))]
fn inputs_too_large(x: Inputs) -> bool
    ensures { result ≡ inputs_too_large x }
{
    let sort = burst(x.hburst);
    let none = no_code(sort);
    (65535 < x.hbusreq) | (65535 < x.hlock) | (1 < x.hready) | (3 < x.htrans) | none
}

#[tactic(auto, unfolding(rules::specs::Valid::outputs_too_large))]
fn outputs_too_large(o: Outputs) -> bool
    ensures { result ≡ outputs_too_large o }
{
    (65535 < o.hgrant) | (1 < o.hmastlock) | (1 < o.decide) | (1 < o.granted) | (1 < o.busreq)
}

#[tactic(auto, unfolding(rules::specs::Valid::inputs_not_built))]
fn inputs_not_built(x: Inputs) -> bool
    ensures { result ≡ inputs_not_built x }
{
    let sort = burst(x.hburst);
    let unbuilt = not_built(sort);
    (x.htrans == 1) | unbuilt
}

#[tactic(auto, unfolding(rules::specs::Valid::inputs_absent))]
fn inputs_absent(n: u32, x: Inputs) -> bool
    ensures { result ≡ inputs_absent n x }
{
    let requests = names_absent(n, x.hbusreq);
    let locks = names_absent(n, x.hlock);
    requests | locks
}

// The tests 4, 5 and 6 of a stimulus.
#[tactic(auto, unfolding(rules::specs::Valid::inputs_check))]
pub fn check_inputs(n: u32, x: Inputs) -> Result<(), Refusal>
    ensures { result ≡ inputs_check n x }
{
    let value = inputs_too_large(x);
    let unbuilt = inputs_not_built(x);
    let absent = inputs_absent(n, x);
    first(value, unbuilt, absent, false)
}

// The tests 4, 5, 6 and 7 of a recorded cycle.
#[tactic(auto, unfolding(rules::specs::Valid::cycle_check))]
pub fn check_cycle(n: u32, c: Cycle) -> Result<(), Refusal>
    ensures { result ≡ cycle_check n c }
{
    let x = c.inputs;
    let o = c.outputs;
    let wide_in = inputs_too_large(x);
    let wide_out = outputs_too_large(o);
    let unbuilt = inputs_not_built(x);
    let absent_in = inputs_absent(n, x);
    let absent_out = names_absent(n, o.hgrant);
    first(
        wide_in | wide_out,
        unbuilt,
        absent_in | absent_out,
        n <= o.hmaster,
    )
}
