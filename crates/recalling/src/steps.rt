// A block of steps, one after the other: the trace line of each, and the end of the program at a step that is refused.
ghost use Rattle.std.specs.Prelude.{◌≡◌, true, ◌≤◌, length, take as front};
ghost use Rattle.streams.specs.Blocks.{progress_of, bytes_of};
ghost use Rattle.streams.specs.Turns.{over};
ghost use Rattle.waves.specs.Reading.{read_step_of};
ghost use Rattle.waves.specs.Files.{lines_in};
ghost use Rattle.conversions.specs.Positions.{position_formed};
ghost use Rattle.conversions.specs.Blocks.{undump_room, undump_stretch};
ghost use Rattle.conversions.specs.Undumping.{undump_turn};
ghost use Rattle.conversions.proofs.Positions.{Formed};
ghost use Rattle.conversions.proofs.UndumpLines.{undump_program_lem};
ghost use Rattle.recalling.specs.Stepped.{Stepped};

use conversions::Position;
use rules::Cycle;
use streams::{Progress, Taking};

// The LFs of a step.
fn lines_in(s: &[u8]) -> u32
    requires { length s.now ≤ 104 }
    ensures { result ≡ lines_in s.now }
{
    s.iter().filter(|b| **b == b'\n').count() as u32
}

// A step that was read: its trace line is written. Where the program stands then, and the bytes of both. It is put into both its callers, since a
// call would hand on and take back the whole position by memory.
// Stays: whoever calls a block builds a `Position` freely and it is tested there, so its fact is a clause of each function behind the test.
#[inline(always)]
fn go(
    p: Position,
    rest: &[u8],
    c: Cycle,
    next: usize,
    lines: u32,
    out: &mut [u8],
) -> (Position, usize, usize)
    requires { (position_formed p ≡ true) × (read_step_of p.n p.count p.before rest.now 0 ≡ Ok (Some (c, next))) × (lines_in (front next rest.now) ≡ lines) × (31 ≤ length out.old) }
    ensures { Stepped p rest.now out.old (Ok result) out.new }
{
    prints::put_cycle(c, out);
    let position = Position {
        n: p.n,
        count: p.count + 1,
        before: c,
        line: p.line + lines,
    };
    (position, next, 31)
}

// A step, read test by test: it is taken, or the line of its refusal is written.
fn read(p: Position, rest: &[u8], out: &mut [u8]) -> Result<(Position, usize, usize), usize>
    requires { (position_formed p ≡ true) × (31 ≤ length out.old) }
    ensures { Stepped p rest.now out.old result out.new }
{
    match scans::read_step(p.n, p.count, p.before, rest, 0) {
        Ok(Some((c, next))) => Ok(go(p, rest, c, next, lines_in(&rest[..next]), out)),
        Ok(None) => Err(0),
        Err(r) => Err(reports::put_refused(p.line, r, out)),
    }
}

// A dump recalled, step by step.
struct Recalling;

impl Taking for Recalling {
    type Kept = Position;

    type State = Position;

    ghost state = { λ t p. p };

    ghost ready = { λ t p. Unit };

    ghost turn = { undump_turn };

    ghost formed = { Formed };

    ghost least = { 3 };

    ghost most = { 31 };

    // At a glance if it is a good one.
    fn take(
        &self,
        p: Position,
        rest: &[u8],
        out: &mut [u8],
    ) -> Result<(Position, usize, usize), usize> {
        if p.count < 1000000 {
            if let Some(seen) = sights::see_step(p.n, p.count, p.before, rest) {
                return Ok(go(p, rest, seen.cycle, seen.next, seen.lines, out));
            }
        }
        read(p, rest, out)
    }

    fn state(&self, p: Position) -> Position {
        p
    }

    ghost laws = { undump_program_lem };
}

// A block, step after step.
pub fn run(p: Position, block: &[u8], out: &mut [u8]) -> Progress<Position>
    requires { (position_formed p ≡ true) × (undump_room block.now ≤ length out.old) }
    ensures { (result ≡ progress_of (undump_stretch p block.now)) × (out.new ≡ over (bytes_of (undump_stretch p block.now)) out.old) }
{
    streams::take_block(&Recalling, p, block, out)
}
