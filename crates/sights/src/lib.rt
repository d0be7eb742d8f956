// The good steps of a dump, read with few tests. Which refusal another step gets the reader of `scans` says.
#![tactic(auto)]

mod columns;
mod place;
mod time;

ghost use Rattle.std.specs.Prelude.{◌≡◌, ◌+◌, ◌<◌, ◌≤◌, true, length, take, IfSome};
ghost use Rattle.rules.specs.Codes.{most_cycles};
ghost use Rattle.rules.specs.State.{masters_ok};
ghost use Rattle.rules.specs.Valid.{cycle_check};
ghost use Rattle.waves.specs.Files.{lines_in};
ghost use Rattle.waves.specs.Reading.{read_step_of};
ghost use Rattle.sights.specs.Sights.{InputsPassed, OutputsPassed};

use place::Place;
use rules::{Cycle, Inputs, Outputs};

// The columns of a stimulus.
fn see_inputs(x: Inputs, at: &mut Place) -> Inputs
    ensures { InputsPassed x at.old.rest.now at.old.lines result at.new.rest.now at.new.lines }
{
    let hbusreq = at.vector::<16>(b'!', x.hbusreq);
    let hlock = at.vector::<16>(b'"', x.hlock);
    let hready = at.flag(b'#', x.hready);
    let htrans = at.vector::<2>(b'$', x.htrans);
    let hburst = at.vector::<3>(b'%', x.hburst);
    Inputs {
        hbusreq,
        hlock,
        hready,
        htrans,
        hburst,
    }
}

// The columns that a trace line adds.
fn see_outputs(o: Outputs, at: &mut Place) -> Outputs
    ensures { OutputsPassed o at.old.rest.now at.old.lines result at.new.rest.now at.new.lines }
{
    let hgrant = at.vector::<16>(b'&', o.hgrant);
    let hmaster = at.vector::<4>(b'\'', o.hmaster);
    let hmastlock = at.flag(b'(', o.hmastlock);
    let decide = at.flag(b')', o.decide);
    let granted = at.flag(b'*', o.granted);
    let busreq = at.flag(b'+', o.busreq);
    Outputs {
        hgrant,
        hmaster,
        hmastlock,
        decide,
        granted,
        busreq,
    }
}

// Whether a cycle passes the tests 4, 5, 6 and 7.
// Stays: n and t are numbers that the caller tested once; a type for each would be made and taken apart at every step.
fn passes(n: u32, c: Cycle) -> bool
    requires { masters_ok n ≡ true }
    ensures { result ≡ true → cycle_check n c ≡ Ok tt }
{
    let x = c.inputs;
    let o = c.outputs;
    let absent = (x.hbusreq | x.hlock | o.hgrant) >> n;
    let flags = x.hready | o.hmastlock | o.decide | o.granted | o.busreq;
    (absent == 0)
        & (flags < 2)
        & (x.htrans < 4)
        & (x.htrans != 1)
        & (x.hburst < 4)
        & (x.hburst != 2)
        & (o.hmaster < n)
}

// A good step: its cycle, the position after it, and its lines.
#[derive(Clone, Copy)]
pub struct Seen {
    pub cycle: Cycle,
    pub next: usize,
    pub lines: u32,
}

// The step of cycle t, after the cycle prev, that s begins with, if it is good; none if it is the first of a dump, or near the end of s.
pub fn see_step(n: u32, t: u32, prev: Cycle, s: &[u8]) -> Option<Seen>
    requires { (masters_ok n ≡ true) × (t < most_cycles) }
    ensures { IfSome result (λ seen. (read_step_of n t prev s.now 0 ≡ Ok (Some (seen.cycle, seen.next))) × (lines_in (take seen.next s.now) ≡ seen.lines) × (seen.next ≤ length s.now)) }
{
    if t == 0 {
        return None;
    }
    let head = s.first_chunk::<128>()?;
    let rest = time::after_time(t, head)?;
    let mut at = Place { rest, lines: 1 };
    let inputs = see_inputs(prev.inputs, &mut at);
    let outputs = see_outputs(prev.outputs, &mut at);
    let cycle = Cycle { inputs, outputs };
    let valid = passes(n, cycle);
    let ends = at.rest[0] == b'#';
    if valid & ends {
        Some(Seen {
            cycle,
            next: 128 - at.rest.len(),
            lines: at.lines,
        })
    } else {
        None
    }
}
