// A cycle with GRANTED low: what it leaves of the owner's burst.
ghost use Rattle.std.specs.Prelude.{◌≤◌, ◌≡◌, eqb};
ghost use Rattle.rules.specs.Codes.{burst_of};
ghost use Rattle.rules.specs.Phase.{phase_opened};
ghost use Rattle.buses.specs.Buses.{Begun, low_after, Runs};

use crate::turn::Now;
use rules::Burst;

// The phase after the cycle, and what keeps the bus busy: 0 where the owner's burst lets a decision fall.
// Stays: `busy` is 0 for a bus that is free, since it is joined with the lock line by `|` into one test.
#[derive(Clone, Copy)]
pub struct Course {
    pub busy: u32,
    pub phase: u32,
}

// The phase that a first beat opens.
fn opened(hburst: u32, lock: u32) -> u32
    requires { lock ≤ 1 }
    ensures { Begun (phase_opened (burst_of hburst) (eqb lock 1)) result }
{
    match signals::burst(hburst) {
        Burst::Unspecified => 4 * lock,
        Burst::Fixed(beats) => beats - 1,
        Burst::Single | Burst::NotBuilt | Burst::NoCode => 0,
    }
}

impl Now {
    // A Fresh access: what a NONSEQ begins keeps the bus busy, also before its first beat is taken.
    fn fresh(self) -> Course
        requires { self.bus.phase ≡ 5 }
        ensures { Runs self.n self.bus self.inputs result.busy result.phase }
    {
        let x = self.inputs;
        let first = opened(x.hburst, self.bus.hmastlock);
        let busy = signals::pick(x.htrans == 2, first, 0);
        let phase = signals::pick((x.hready == 1) & (x.htrans == 2), first, 5);
        Course { busy, phase }
    }

    // An access that is no longer Fresh: the phase after the cycle.
    fn later(self) -> u32
        requires { self.bus.phase ≤ 4 }
        ensures { Begun (low_after self.n self.bus self.inputs) result }
    {
        let k = self.bus.phase;
        match k {
            0 => 0,
            1..=3 => k - self.inputs.hready,
            4.. => 4 * self.request,
        }
    }

    // What the cycle leaves of the owner's burst.
    pub fn course(self) -> Course
        ensures { Runs self.n self.bus self.inputs result.busy result.phase }
    {
        if self.bus.phase == 5 {
            self.fresh()
        } else {
            let k = self.later();
            Course { busy: k, phase: k }
        }
    }
}
