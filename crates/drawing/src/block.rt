// A block of trace lines, one after the other: the step of each, and the end of the program at a line that is not taken.
ghost use Rattle.std.specs.Prelude.{◌≡◌, true, false, ◌≤◌, ◌<◌, length};
ghost use Rattle.rules.specs.Codes.{most_cycles};
ghost use Rattle.streams.specs.Blocks.{progress_of, bytes_of};
ghost use Rattle.streams.specs.Turns.{over, Put, Lined};
ghost use Rattle.waves.specs.Steps.{dump_step};
ghost use Rattle.conversions.specs.Positions.{after, position_formed};
ghost use Rattle.conversions.specs.Dumping.{dump_turn};
ghost use Rattle.conversions.specs.Blocks.{dump_room, dump_stretch};
ghost use Rattle.conversions.proofs.Positions.{Formed};
ghost use Rattle.conversions.proofs.DumpLines.{dump_program_lem};
ghost use Rattle.drawing.specs.Stops.{NotTaken};

use conversions::Position;
use glances::DigitTable;
use rules::{Cycle, Refusal};
use streams::{Progress, Taking};

// A cycle in time: where the conversion stands after it, and how many bytes its step has.
// Stays: whoever calls a block builds a `Position` freely and it is tested there, so its fact is a clause of each function behind the test.
fn go(p: Position, c: Cycle, out: &mut [u8]) -> (Position, usize)
    requires { (position_formed p ≡ true) × (p.count < most_cycles) × (104 ≤ length out.old) }
    ensures { Put (dump_step p.before p.count c) out.old result.1 out.new × (result.0 ≡ after p c 1) }
{
    let before = p.before;
    let written = dumps::put_step(before, p.count, c, out);
    let position = Position {
        n: p.n,
        count: p.count + 1,
        before: c,
        line: p.line + 1,
    };
    (position, written)
}

// A line that is not taken: that of its refusal, which is 8 for a good line after the last cycle.
// Stays: beside that of stimuli and of traces: the line number and what the end writes differ.
fn stop(p: Position, rest: &[u8], out: &mut [u8]) -> usize
    requires { NotTaken p rest.now × (31 ≤ length out.old) }
    ensures { Lined p (dump_turn p rest.now) out.old result false p out.new }
{
    match lines::read_trace(p.n, rest, 0) {
        Ok(Some((_, _))) => reports::put_refused(p.line, Refusal::Full, out),
        Ok(None) => 0,
        Err(r) => reports::put_refused(p.line, r, out),
    }
}

// A trace drawn, line by line.
#[derive(Drop)]
struct Drawing {
    digits: DigitTable,
}

impl Taking for Drawing {
    type Kept = Position;

    type State = Position;

    ghost state = { λ t p. p };

    ghost ready = { λ t p. Unit };

    ghost turn = { dump_turn };

    ghost formed = { Formed };

    ghost least = { 31 };

    ghost most = { 104 };

    fn take(
        &self,
        p: Position,
        rest: &[u8],
        out: &mut [u8],
    ) -> Result<(Position, usize, usize), usize> {
        if rest.len() < 31 {
            return Err(stop(p, rest, out));
        }
        match self.digits.see_trace(p.n, rest) {
            Some(c) if p.count < 1000000 => {
                let (next, written) = go(p, c, out);
                Ok((next, 31, written))
            }
            _ => Err(stop(p, rest, out)),
        }
    }

    fn state(&self, p: Position) -> Position {
        p
    }

    ghost laws = { dump_program_lem };
}

// A block, line after line.
pub fn run(p: Position, block: &[u8], out: &mut [u8]) -> Progress<Position>
    requires { (position_formed p ≡ true) × (dump_room block.now ≤ length out.old) }
    ensures { (result ≡ progress_of (dump_stretch p block.now)) × (out.new ≡ over (bytes_of (dump_stretch p block.now)) out.old) }
{
    let drawing = Drawing {
        digits: DigitTable::new(),
    };
    streams::take_block(&drawing, p, block, out)
}
