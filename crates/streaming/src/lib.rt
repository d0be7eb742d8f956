// The two programs, block by block: what they keep goes in by value and comes back, and what they write goes into a lent buffer.
#![tactic(auto)]

ghost use Rattle.std.specs.Prelude.{◌≡◌, true, ◌≤◌, length};
ghost use Rattle.rules.specs.Codes.{most_cycles};
ghost use Rattle.rules.specs.State.{masters_ok, reset_state};
ghost use Rattle.rulebook.specs.State.{start_of};
ghost use Rattle.formats.specs.declared.Word.TheVariants.{Trace};
ghost use Rattle.formats.specs.Headers.{header};
ghost use Rattle.streams.specs.Blocks.{arbiter_block_of, arbiter_block_left, tally_formed, judge_block_of, judge_block_left};
ghost use Rattle.streaming.specs.declared.ArbiterHead.TheVariants.{Begun};
ghost use Rattle.streams.specs.Turns.{over};
ghost use Rattle.streaming.specs.Heads.{arbiter_head_of, arbiter_head_left, judge_head_of, judge_head_left, judge_end_of, judge_end_left};

use formats::Word;
use rules::{Refusal, State};
use streams::{Flow, Progress, Tally};

// What a stimulus header comes to: the bytes of the trace's header and the state to go on from, those of a refusal line, or 9.
// Stays: three answers and not two; a state comes with the first alone, and `arbiter_head_of` says which by these names.
#[derive(Clone, Copy)]
pub enum ArbiterHead {
    Begun(usize, State),
    Refused(usize),
    Short,
}

// A header that was accepted.
fn begin(n: u32, out: &mut [u8]) -> ArbiterHead
    requires { (masters_ok n ≡ true) × (31 ≤ length out.old) }
    ensures { (result ≡ Begun (length (header Trace n)) (reset_state n)) × (out.new ≡ over (header Trace n) out.old) }
{
    match arbitration::reset(n) {
        Ok(s) => ArbiterHead::Begun(reports::put_header(n, out), s),
        Err(r) => ArbiterHead::Refused(reports::put_refused(1, r, out)),
    }
}

// The header of a stimulus, and the trace's: 9, or as far as it goes.
pub fn arbiter_head(head: &[u8], out: &mut [u8]) -> ArbiterHead
    ensures { (result ≡ arbiter_head_of head.now (length out.old)) × (out.new ≡ arbiter_head_left head.now out.old) }
{
    if out.len() < 31 {
        return ArbiterHead::Short;
    }
    match headers::read_header(Word::Stim, head) {
        Ok((n, _)) => begin(n, out),
        Err(r) => ArbiterHead::Refused(reports::put_refused(1, r, out)),
    }
}

// One block of a stimulus: 9, 10, or its trace lines as far as the arbiter goes.
// Stays: beside the other block calls, here, in drawing and in recalling; room, state and its test differ in each, and two tests are no longer than a call with them all.
pub fn arbiter_block(s: State, block: &[u8], out: &mut [u8]) -> Progress<State>
    ensures { (result ≡ arbiter_block_of s block.now (length out.old)) × (out.new ≡ arbiter_block_left s block.now out.old) }
{
    if out.len() / 31 < block.len() / 16 + 1 {
        return Progress {
            written: 0,
            flow: Flow::Short,
            kept: s,
        };
    }
    if !arbitration::well_formed(s) {
        return Progress {
            written: 0,
            flow: Flow::Unformed,
            kept: s,
        };
    }
    stimuli::run(s, block, out)
}

// What the judging program keeps at the start; for no good n it is a judge of no masters.
fn tally(n: u32) -> Tally
    ensures { result ≡ record { judge = (start_of n).judge; breaches = 0 } }
{
    let opening = judging::start(n);
    let judge = opening.judge;
    Tally { judge, breaches: 0 }
}

// The header of a trace: 9, or the judge at its start, or the line of a refusal.
// Stays: beside dump_head and undump_head: another header is read, another one written, and another state begun.
pub fn judge_head(head: &[u8], out: &mut [u8]) -> Progress<Tally>
    ensures { (result ≡ judge_head_of head.now (length out.old)) × (out.new ≡ judge_head_left head.now out.old) }
{
    if out.len() < 31 {
        return Progress {
            written: 0,
            flow: Flow::Short,
            kept: tally(0),
        };
    }
    match headers::read_header(Word::Trace, head) {
        Ok((n, _)) => Progress {
            written: 0,
            flow: Flow::GoesOn,
            kept: tally(n),
        },
        Err(r) => Progress {
            written: reports::put_refused(1, r, out),
            flow: Flow::Stopped,
            kept: tally(0),
        },
    }
}

// Whether what the judging program keeps is well formed.
fn tally_formed(b: Tally) -> bool
    ensures { result ≡ tally_formed b }
{
    let j = b.judge;
    let formed = judging::well_formed(j);
    formed & (b.breaches as u64 <= 21 * (j.count as u64))
}

// One block of a trace: 9, 10, or its breach lines as far as the judge goes.
pub fn judge_block(b: Tally, block: &[u8], out: &mut [u8]) -> Progress<Tally>
    ensures { (result ≡ judge_block_of b block.now (length out.old)) × (out.new ≡ judge_block_left b block.now out.old) }
{
    if out.len() / 315 < block.len() / 31 + 1 {
        return Progress {
            written: 0,
            flow: Flow::Short,
            kept: b,
        };
    }
    if !tally_formed(b) {
        return Progress {
            written: 0,
            flow: Flow::Unformed,
            kept: b,
        };
    }
    traces::run(b, block, out)
}

// The end of the trace: 10, 9, or the last line of the report.
pub fn judge_end(b: Tally, out: &mut [u8]) -> Result<usize, Refusal>
    ensures { (result ≡ judge_end_of b (length out.old)) × (out.new ≡ judge_end_left b out.old) }
{
    if !tally_formed(b) {
        return Err(Refusal::State);
    }
    let j = b.judge;
    headers::write_end(j.count, b.breaches, out)
}
