// One cycle that a step takes, and what it comes to.
ghost use Rattle.std.specs.Prelude.{◌≡◌, false, ◌≤◌, ◌<◌, ◌^◌, eqb};
ghost use Rattle.std.specs.Prelude.{Some};
ghost use Rattle.rules.specs.Masks.{high};
ghost use Rattle.rules.specs.Winner.{winner as winner_of};
ghost use Rattle.rules.specs.Phase.{seen};
ghost use Rattle.rules.specs.Step.{shown};
ghost use Rattle.signals.specs.Flags.{Stands};
ghost use Rattle.buses.specs.Buses.{state_from, Due, decide_of, Chooses, Moves};

use crate::{Bus, bit, mask, walk};
use rules::{Inputs, Outputs};

// A cycle of n masters: the bus before it, what the masters and the slave drive, and the owner's request.
#[derive(Clone, Copy)]
pub struct Now {
    pub n: u32,
    pub bus: Bus,
    pub inputs: Inputs,
    pub request: u32,
    ghost due: { Due n bus inputs },
    ghost stands: { Stands request (high inputs.hbusreq bus.m) },
}

// The grant after a decision that some master asked for.
// Stays: with unwrap() the step with numbers takes 1.26 times the instructions of the C, and 1.2 times are allowed; with the match 1.14.
fn winner(n: u32, g: u32, m: u32) -> u32
    requires { (n ≤ 16) × (g < n) × (m < 2 ^ n) × (eqb m 0 ≡ false) }
    ensures { winner_of n g m ≡ Some result }
{
    match walk::winner(n, g, m) {
        Some(i) => i,
        None => 0,
    }
}

// What a cycle with GRANTED low chooses: the grant and GRANTED after it, and DECIDE.
#[derive(Clone, Copy)]
struct Choice {
    g: u32,
    granted: u32,
    decide: u32,
}

// What a cycle comes to: the bus after it, and DECIDE.
#[derive(Clone, Copy)]
pub struct Turn {
    pub bus: Bus,
    pub decide: u32,
}

impl Now {
    // The choice of a cycle with GRANTED low: a decision where nothing holds the bus, and else all stays as it is.
    fn choose(self, held: u32) -> Choice
        requires { self.bus.granted ≡ 0 }
        ensures { Chooses self.n self.bus self.inputs (eqb held 0) result.g result.granted result.decide }
    {
        if held == 0 {
            if self.inputs.hbusreq == 0 {
                Choice {
                    g: 0,
                    granted: u32::from(self.bus.m != 0),
                    decide: 1,
                }
            } else {
                Choice {
                    g: winner(self.n, self.bus.g, self.inputs.hbusreq),
                    granted: 1,
                    decide: 1,
                }
            }
        } else {
            Choice {
                g: self.bus.g,
                granted: 0,
                decide: 0,
            }
        }
    }

    // With GRANTED low: a decision, unless the owner's lock or burst holds the bus.
    fn decide(self) -> Turn
        requires { self.bus.granted ≡ 0 }
        ensures { Moves self.n self.bus self.inputs result.decide result.bus }
    {
        let b = self.bus;
        let lock = bit(self.inputs.hlock, b.m);
        let course = self.course();
        let choice = self.choose((b.hmastlock & lock) | course.busy);
        let bus = Bus {
            g: choice.g,
            m: b.m,
            hmastlock: b.hmastlock,
            granted: choice.granted,
            phase: course.phase,
            count: b.count + 1,
        };
        Turn {
            bus,
            decide: choice.decide,
        }
    }

    // With GRANTED high: a handover where the cycle is ready, and else a wait.
    fn wait(self) -> Turn
        requires { self.bus.granted ≡ 1 }
        ensures { Moves self.n self.bus self.inputs result.decide result.bus }
    {
        let b = self.bus;
        let lock = bit(self.inputs.hlock, b.g);
        let over = self.inputs.hready == 1;
        let bus = Bus {
            g: b.g,
            m: signals::pick(over, b.g, b.m),
            hmastlock: signals::pick(over, lock, b.hmastlock),
            granted: 1 - self.inputs.hready,
            phase: signals::pick(over, 5, b.phase),
            count: b.count + 1,
        };
        Turn { bus, decide: 0 }
    }

    pub fn turn(self) -> Turn
        ensures { Moves self.n self.bus self.inputs result.decide result.bus }
    {
        if self.bus.granted == 0 {
            self.decide()
        } else {
            self.wait()
        }
    }

    // What is shown in it.
    pub fn show(self, decide: u32) -> Outputs
        requires { Stands decide (decide_of self.n self.bus self.inputs) }
        ensures { result ≡ shown (state_from self.n self.bus) (seen (state_from self.n self.bus) self.inputs) (decide_of self.n self.bus self.inputs) }
    {
        let b = self.bus;
        Outputs {
            hgrant: mask(b.g),
            hmaster: b.m,
            hmastlock: b.hmastlock,
            decide,
            granted: b.granted,
            busreq: self.request,
        }
    }
}
