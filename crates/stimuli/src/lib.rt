// A block of stimulus lines through the arbiter, line after line: the trace line of each cycle, and the end of the program at a line that is not taken.
#![tactic(auto)]

ghost use Rattle.std.specs.Prelude.{◌≡◌, true, false, ◌≤◌, ◌<◌, length};
ghost use Rattle.rules.specs.Codes.{most_cycles};
ghost use Rattle.rules.specs.State.{WellFormed};
ghost use Rattle.rules.specs.Step.{step_of};
ghost use Rattle.formats.specs.Lines.{read_stimulus_of};
ghost use Rattle.streams.specs.Arbiter.{stepped, arbiter_turn};
ghost use Rattle.streams.specs.Blocks.{arbiter_room, progress_of, arbiter_stretch, bytes_of};
ghost use Rattle.streams.specs.Turns.{Lined, over};
ghost use Rattle.buses.specs.Buses.{state_from, Fit};
ghost use Rattle.streams.proofs.Arbitrated.{arbiter_program_lem};
ghost use Rattle.stimuli.specs.Stops.{NotTaken};

use buses::Bus;
use glances::DigitTable;
use rules::{Cycle, Inputs, Refusal, State};
use streams::{Progress, Taking};

// A cycle that the arbiter takes: the trace line of its stimulus line is written.
// Stays: a state comes in by value from anywhere and is tested once, so that it is well formed is a clause of each function behind the test.
fn go(n: u32, b: Bus, x: Inputs, rest: &[u8], out: &mut [u8]) -> Bus
    requires { WellFormed (state_from n b) × Fit b × (b.count < most_cycles) × (read_stimulus_of n rest.now 0 ≡ Ok (Some (x, 16))) × (16 ≤ length rest.now) × (31 ≤ length out.old) }
    ensures { Lined (state_from n b) (stepped (step_of (state_from n b) x) x (state_from n b) 16) out.old 31 true (state_from n result) out.new × Fit result }
{
    let went = buses::advance(n, b, x);
    let o = went.outputs;
    let c = Cycle {
        inputs: x,
        outputs: o,
    };
    glances::put_trace(rest, b.g, c, out);
    went.bus
}

// A line that is not taken: that of its refusal, which is 8 for a good line after the last cycle.
// Stays: beside that of traces and of drawing: what is read, the line number and what the end writes differ.
fn stop(s: State, rest: &[u8], out: &mut [u8]) -> usize
    requires { WellFormed s × NotTaken s rest.now × (31 ≤ length out.old) }
    ensures { Lined s (arbiter_turn s rest.now) out.old result false s out.new }
{
    match lines::read_stimulus(s.n, rest, 0) {
        Ok(Some((_, _))) => reports::put_refused(s.count + 2, Refusal::Full, out),
        Ok(None) => 0,
        Err(r) => reports::put_refused(s.count + 2, r, out),
    }
}

// The arbiter of so many masters, as it takes its lines.
#[derive(Drop)]
struct Arbiter {
    digits: DigitTable,
    n: u32,
}

impl Taking for Arbiter {
    type Kept = Bus;

    type State = State;

    ghost state = { λ t b. state_from t.n b };

    ghost ready = { λ t b. Fit b };

    ghost turn = { arbiter_turn };

    ghost formed = { WellFormed };

    ghost least = { 16 };

    ghost most = { 31 };

    fn take(&self, b: Bus, rest: &[u8], out: &mut [u8]) -> Result<(Bus, usize, usize), usize> {
        if rest.len() < 16 {
            return Err(stop(buses::state(self.n, b), rest, out));
        }
        match self.digits.see_stimulus(self.n, rest) {
            Some(x) if b.count < 1000000 => Ok((go(self.n, b, x, rest, out), 16, 31)),
            _ => Err(stop(buses::state(self.n, b), rest, out)),
        }
    }

    fn state(&self, b: Bus) -> State {
        buses::state(self.n, b)
    }

    ghost laws = { arbiter_program_lem };
}

// A block, line after line.
pub fn run(s: State, block: &[u8], out: &mut [u8]) -> Progress<State>
    requires { WellFormed s × (arbiter_room block.now ≤ length out.old) }
    ensures { (result ≡ progress_of (arbiter_stretch s block.now)) × (out.new ≡ over (bytes_of (arbiter_stretch s block.now)) out.old) }
{
    let arbiter = Arbiter {
        digits: DigitTable::new(),
        n: s.n,
    };
    streams::take_block(&arbiter, buses::bus_of(s), block, out)
}
