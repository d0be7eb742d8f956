// The judging program: a trace on standard input, its report on standard output.
#![tactic(auto)]

ghost use Rattle.std.specs.Prelude.{length, take as front};
ghost use Rattle.formats.specs.declared.Word.TheVariants.{Trace};
ghost use Rattle.formats.specs.Headers.{read_header_of};
ghost use Rattle.streams.specs.Judging.{start_tally, judge_turn};
ghost use Rattle.streams.specs.Breaches.{Formed};
ghost use Rattle.streaming.specs.Heads.{head_room};
ghost use Rattle.console.specs.Going.{Lines, Lent};
ghost use Rattle.console.specs.Ran.{Begins};
ghost use Rattle.judge.specs.Breaches.{named};
ghost use Rattle.judge.specs.Laws.{count, laws};

use console::{Ending, Output, Program};
use rules::Refusal;
use std::io::{Read, Write};
use streams::{Progress, Tally};

struct Judge;

impl Program for Judge {
    type Kept = Tally;

    ghost turn = { judge_turn };

    ghost breaches = { named };

    ghost formed = { Formed };

    ghost count = { count };

    ghost header = { read_header_of Trace };

    ghost begin = { start_tally };

    ghost head_room = { head_room };

    ghost parts = { Lines 31 };

    ghost rest = { 30 };

    ghost least = { 31 };

    ghost most = { 315 };

    ghost laws = { laws };

    fn head(head: &[u8], out: &mut [u8]) -> Result<(usize, Tally), usize> {
        console::heading(streaming::judge_head(head, out))
    }

    fn block(b: Tally, block: &[u8], out: &mut [u8]) -> Progress<Tally> {
        streaming::judge_block(b, block, out)
    }

    fn cut(block: &[u8]) -> usize {
        console::whole_lines(31, block)
    }

    fn named(b: Tally) -> u32 {
        b.breaches
    }

    // The end line.
    fn end(b: Tally, out: &mut [u8]) -> Result<usize, Refusal> {
        streaming::judge_end(b, out)
    }
}

// The program from its header to its end, as console has it for every program.
fn start<R: Read, W: Write>(
    input: &mut R,
    output: &mut Output<W>,
    n: usize,
    block: &mut [u8],
    out: &mut [u8],
) -> Ending
    requires { Lent 31 315 (length block.old) (length out.old) }
    ensures { Begins named judge_turn (Lines 31) start_tally result (read_header_of Trace (front n block.old)) }
{
    console::begin::<Judge, R, W>(input, output, n, block, out)
}

// 1,024 lines at a time, and room for the breaches of each and of one line more.
// Stays: the mains differ in sizes alone, but a size of an array cannot come from a constant of the trait.
fn main(rt: HostRuntime) {
    let mut input = rt.stdin();
    let mut output = Output::new(rt.stdout());
    let mut block = [0u8; 31744];
    let mut out = [0u8; 322875];
    let ending = match console::read_head(&mut input, 10, &mut block) {
        Ok(n) => start(&mut input, &mut output, n, &mut block, &mut out),
        Err(e) => e,
    };
    console::tell(&rt, ending, output);
}
