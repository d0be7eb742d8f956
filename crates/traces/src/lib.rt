// A block of trace lines through the judge, line after line: the breaches of each cycle, and the end of the program at a line that is not taken.
#![tactic(auto)]

ghost use Rattle.std.specs.Prelude.{◌≡◌, true, false, ◌≤◌, ◌<◌, length};
ghost use Rattle.rules.specs.Codes.{most_cycles};
ghost use Rattle.rules.specs.Valid.{cycle_check};
ghost use Rattle.rulebook.specs.Step.{judge_of};
ghost use Rattle.streams.specs.Judging.{judged_to, judge_turn};
ghost use Rattle.streams.specs.Blocks.{judge_room, progress_of, judge_stretch, bytes_of};
ghost use Rattle.streams.specs.Turns.{Lined, over};
ghost use Rattle.streams.specs.Breaches.{Formed};
ghost use Rattle.traces.specs.Stops.{NotTaken};

use glances::DigitTable;
use rules::{Cycle, Refusal};
use streams::{Flow, Progress, Tally};

// What a cycle that is taken comes to: the bytes written, and what is kept after it.
#[derive(Clone, Copy)]
struct Gone {
    written: usize,
    tally: Tally,
}

// A cycle that the judge takes: its breach lines are written.
// Stays: what the judging program keeps comes in by value and is tested once, so its fact is a clause of each function behind the test.
fn go(b: Tally, c: Cycle, out: &mut [u8]) -> Gone
    requires { Formed b × (b.judge.count < most_cycles) × (cycle_check b.judge.n c ≡ Ok tt) × (315 ≤ length out.old) }
    ensures { Lined b (judged_to (judge_of b.judge c).verdict (judge_of b.judge c) b 31) out.old result.written true result.tally out.new }
{
    let j = b.judge;
    let kept = keeping::keep(j, c);
    let charged = charging::charge_all(j, c, kept.reached);
    let found = reports::put_breaches(j.count, charged, out);
    let judge = kept.judge;
    let tally = Tally {
        judge,
        breaches: b.breaches + found.count,
    };
    Gone {
        written: found.written,
        tally,
    }
}

// A line that is not taken: that of its refusal, which is 8 for a good line after the last cycle.
// Stays: beside that of stimuli and of drawing: the line number and what the end writes differ.
fn stop(b: Tally, rest: &[u8], out: &mut [u8]) -> usize
    requires { Formed b × NotTaken b rest.now × (31 ≤ length out.old) }
    ensures { Lined b (judge_turn b rest.now) out.old result false b out.new }
{
    let j = b.judge;
    match lines::read_trace(j.n, rest, 0) {
        Ok(Some((_, _))) => reports::put_refused(j.count + 2, Refusal::Full, out),
        Ok(None) => reports::put_end(j.count, b.breaches, out),
        Err(r) => reports::put_refused(j.count + 2, r, out),
    }
}

// A block, line after line.
pub fn run(b: Tally, block: &[u8], out: &mut [u8]) -> Progress<Tally>
    requires { Formed b × (judge_room block.now ≤ length out.old) }
    ensures { (result ≡ progress_of (judge_stretch b block.now)) × (out.new ≡ over (bytes_of (judge_stretch b block.now)) out.old) }
{
    let digits = DigitTable::new();
    let mut tally = b;
    let mut at: usize = 0;
    let mut w: usize = 0;
    let mut on = true;
    // Stays: through `streams::take_block` a line costs 521 instructions for 478, and 485 are allowed.
    while on & (31 <= block.len() - at) {
        let j = tally.judge;
        match digits.see_trace(j.n, &block[at..]) {
            Some(c) if j.count < 1000000 => {
                let gone = go(tally, c, &mut out[w..]);
                let next = gone.tally;
                tally = next;
                w += gone.written;
                at += 31;
            }
            _ => on = false,
        }
    }
    if at < block.len() {
        w += stop(tally, &block[at..], &mut out[w..]);
        return Progress {
            written: w,
            flow: Flow::Stopped,
            kept: tally,
        };
    }
    Progress {
        written: w,
        flow: Flow::GoesOn,
        kept: tally,
    }
}
