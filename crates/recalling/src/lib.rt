// Steps recalled as trace lines: a header and a block, as vcd2trace takes them, and where a block is cut.
#![tactic(auto)]

mod cuts;
mod steps;

ghost use Rattle.std.specs.Prelude.{◌≡◌, length};
ghost use Rattle.conversions.specs.Blocks.{undump_block_of, undump_block_left};
ghost use Rattle.conversions.specs.Heads.{undump_head_of, undump_head_left};

use conversions::Position;
pub use cuts::cut;
use streams::{Flow, Progress};

// The header of a dump: 9, or the trace's header and the start, or the line of a refusal.
pub fn undump_head(head: &[u8], out: &mut [u8]) -> Progress<Position>
    ensures { (result ≡ undump_head_of head.now (length out.old)) × (out.new ≡ undump_head_left head.now out.old) }
{
    if out.len() < 31 {
        return Progress {
            written: 0,
            flow: Flow::Short,
            kept: positions::start(0, 17),
        };
    }
    match scans::read_dump_header(head) {
        Ok((n, _)) => Progress {
            written: reports::put_header(n, out),
            flow: Flow::GoesOn,
            kept: positions::start(n, 17),
        },
        Err(r) => Progress {
            written: reports::put_refused(1, r, out),
            flow: Flow::Stopped,
            kept: positions::start(0, 17),
        },
    }
}

// One block of a dump: 9, 10, or its trace lines as far as they go.
pub fn undump_block(p: Position, block: &[u8], out: &mut [u8]) -> Progress<Position>
    ensures { (result ≡ undump_block_of p block.now (length out.old)) × (out.new ≡ undump_block_left p block.now out.old) }
{
    if out.len() / 31 < block.len() / 3 + 1 {
        return Progress {
            written: 0,
            flow: Flow::Short,
            kept: p,
        };
    }
    if !positions::formed(p) {
        return Progress {
            written: 0,
            flow: Flow::Unformed,
            kept: p,
        };
    }
    steps::run(p, block, out)
}
