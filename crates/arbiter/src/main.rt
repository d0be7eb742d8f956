// The arbiter program: a stimulus on standard input, its trace on standard output.
#![tactic(auto)]

ghost use Rattle.std.specs.Prelude.{length, take as front};
ghost use Rattle.rules.specs.State.{reset_state};
ghost use Rattle.formats.specs.declared.Word.TheVariants.{Stim};
ghost use Rattle.formats.specs.Headers.{read_header_of};
ghost use Rattle.streams.specs.Arbiter.{arbiter_turn};
ghost use Rattle.streaming.specs.Heads.{head_room};
ghost use Rattle.console.specs.Going.{Lines, Lent};
ghost use Rattle.console.specs.Ran.{Begins};
ghost use Rattle.arbiter.specs.Breaches.{no_breach};
ghost use Rattle.arbiter.specs.Laws.{formed, count, laws};

use console::{Ending, Output, Program};
use rules::State;
use std::io::{Read, Write};
use streaming::ArbiterHead;
use streams::Progress;

struct Arbiter;

impl Program for Arbiter {
    type Kept = State;

    ghost turn = { arbiter_turn };

    ghost breaches = { no_breach };

    ghost formed = { formed };

    ghost count = { count };

    ghost header = { read_header_of Stim };

    ghost begin = { reset_state };

    ghost head_room = { head_room };

    ghost parts = { Lines 16 };

    ghost rest = { 15 };

    ghost least = { 16 };

    ghost most = { 31 };

    ghost laws = { laws };

    fn head(head: &[u8], out: &mut [u8]) -> Result<(usize, State), usize> {
        match streaming::arbiter_head(head, out) {
            ArbiterHead::Begun(written, s) => Ok((written, s)),
            ArbiterHead::Refused(written) => Err(written),
            ArbiterHead::Short => Err(0),
        }
    }

    fn block(s: State, block: &[u8], out: &mut [u8]) -> Progress<State> {
        streaming::arbiter_block(s, block, out)
    }

    fn cut(block: &[u8]) -> usize {
        console::whole_lines(16, block)
    }

    // It names no breach.
    fn named(_s: State) -> u32 {
        0
    }
}

// The program from its header to its end, as console has it for every program.
fn start<R: Read, W: Write>(
    input: &mut R,
    output: &mut Output<W>,
    n: usize,
    block: &mut [u8],
    out: &mut [u8],
) -> Ending
    requires { Lent 16 31 (length block.old) (length out.old) }
    ensures { Begins no_breach arbiter_turn (Lines 16) reset_state result (read_header_of Stim (front n block.old)) }
{
    console::begin::<Arbiter, R, W>(input, output, n, block, out)
}

// 2,048 lines at a time, and room for a trace line for each and for one line more.
// Stays: the mains differ in sizes alone, but a size of an array cannot come from a constant of the trait.
fn main(rt: HostRuntime) {
    let mut input = rt.stdin();
    let mut output = Output::new(rt.stdout());
    let mut block = [0u8; 32768];
    let mut out = [0u8; 63519];
    let ending = match console::read_head(&mut input, 9, &mut block) {
        Ok(n) => start(&mut input, &mut output, n, &mut block, &mut out),
        Err(e) => e,
    };
    console::tell(&rt, ending, output);
}
