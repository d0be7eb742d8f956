// Trace lines drawn as steps: a header and a block, as trace2vcd takes them. Where the conversion stands goes in by value and comes back,
// and what it writes goes into a lent buffer.
#![tactic(auto)]

mod block;

ghost use Rattle.std.specs.Prelude.{◌≡◌, true, ◌≤◌, length};
ghost use Rattle.rules.specs.State.{masters_ok};
ghost use Rattle.streams.specs.Turns.{Put};
ghost use Rattle.waves.specs.Header.{dump_header};
ghost use Rattle.conversions.specs.Blocks.{dump_block_of, dump_block_left};
ghost use Rattle.conversions.specs.Heads.{dump_head_of, dump_head_left};

use conversions::Position;
use formats::Word;
use streams::{Flow, Progress};

// The dump's header.
fn put_header(n: u32, out: &mut [u8]) -> usize
    requires { (masters_ok n ≡ true) × (398 ≤ length out.old) }
    ensures { Put (dump_header n) out.old result out.new }
{
    dumps::write_dump_header(n, out).unwrap_or(0)
}

// The header of a trace: 9, or the dump's header and the start, or the line of a refusal.
pub fn dump_head(head: &[u8], out: &mut [u8]) -> Progress<Position>
    ensures { (result ≡ dump_head_of head.now (length out.old)) × (out.new ≡ dump_head_left head.now out.old) }
{
    if out.len() < 398 {
        return Progress {
            written: 0,
            flow: Flow::Short,
            kept: positions::start(0, 2),
        };
    }
    match headers::read_header(Word::Trace, head) {
        Ok((n, _)) => Progress {
            written: put_header(n, out),
            flow: Flow::GoesOn,
            kept: positions::start(n, 2),
        },
        Err(r) => Progress {
            written: reports::put_refused(1, r, out),
            flow: Flow::Stopped,
            kept: positions::start(0, 2),
        },
    }
}

// One block of a trace: 9, 10, or its steps as far as they go.
pub fn dump_block(p: Position, block: &[u8], out: &mut [u8]) -> Progress<Position>
    ensures { (result ≡ dump_block_of p block.now (length out.old)) × (out.new ≡ dump_block_left p block.now out.old) }
{
    if out.len() / 104 < block.len() / 31 + 1 {
        return Progress {
            written: 0,
            flow: Flow::Short,
            kept: p,
        };
    }
    if !positions::formed(p) {
        return Progress {
            written: 0,
            flow: Flow::Unformed,
            kept: p,
        };
    }
    block::run(p, block, out)
}
