// The program trace2vcd: a trace on standard input, its dump on standard output.
#![tactic(auto)]

ghost use Rattle.std.specs.Prelude.{◌≤◌, length, take as front};
ghost use Rattle.formats.specs.declared.Word.TheVariants.{Trace};
ghost use Rattle.formats.specs.Headers.{read_header_of};
ghost use Rattle.conversions.specs.Dumping.{dump_turn};
ghost use Rattle.conversions.specs.Heads.{dump_head_room};
ghost use Rattle.console.specs.Going.{Lines, Lent};
ghost use Rattle.console.specs.Ran.{Begins};
ghost use Rattle.trace2vcd.specs.Answers.{no_breach, begun_with};
ghost use Rattle.trace2vcd.specs.Laws.{formed, count, laws};

use console::{Ending, Output, Program};
use conversions::Position;
use std::io::{Read, Write};
use streams::Progress;

struct Drawing;

impl Program for Drawing {
    type Kept = Position;

    ghost turn = { dump_turn };

    ghost breaches = { no_breach };

    ghost formed = { formed };

    ghost count = { count };

    ghost header = { read_header_of Trace };

    ghost begin = { begun_with };

    ghost head_room = { dump_head_room };

    ghost parts = { Lines 31 };

    ghost rest = { 30 };

    ghost least = { 31 };

    ghost most = { 104 };

    ghost laws = { laws };

    fn head(head: &[u8], out: &mut [u8]) -> Result<(usize, Position), usize> {
        console::heading(drawing::dump_head(head, out))
    }

    fn block(p: Position, block: &[u8], out: &mut [u8]) -> Progress<Position> {
        drawing::dump_block(p, block, out)
    }

    fn cut(block: &[u8]) -> usize {
        console::whole_lines(31, block)
    }

    // It names no breach.
    fn named(_p: Position) -> u32 {
        0
    }
}

// The program from its header to its end, as console has it for every program.
fn start<R: Read, W: Write>(
    input: &mut R,
    output: &mut Output<W>,
    n: usize,
    block: &mut [u8],
    out: &mut [u8],
) -> Ending
    requires lent { Lent 31 104 (length block.old) (length out.old) }
    requires room { dump_head_room ≤ length out.old }
    ensures { Begins no_breach dump_turn (Lines 31) begun_with result (read_header_of Trace (front n block.old)) }
{
    console::begin::<Drawing, R, W>(input, output, n, block, out)
}

// 1,024 lines at a time, and room for the step of each and of one line more.
// Stays: the mains differ in sizes alone, but a size of an array cannot come from a constant of the trait.
fn main(rt: HostRuntime) {
    let mut input = rt.stdin();
    let mut output = Output::new(rt.stdout());
    let mut block = [0u8; 31744];
    let mut out = [0u8; 106600];
    let ending = match console::read_head(&mut input, 10, &mut block) {
        Ok(n) => start(&mut input, &mut output, n, &mut block, &mut out),
        Err(e) => e,
    };
    console::tell(&rt, ending, output);
}
