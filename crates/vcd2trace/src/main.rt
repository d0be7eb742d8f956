// The program vcd2trace: a dump on standard input, its trace on standard output.
#![tactic(auto)]

ghost use Rattle.std.specs.Prelude.{length, take as front};
ghost use Rattle.waves.specs.Header.{read_dump_header_of};
ghost use Rattle.conversions.specs.Undumping.{undump_turn};
ghost use Rattle.conversions.specs.Heads.{undump_head_room};
ghost use Rattle.recalling.specs.Cuts.{Parted};
ghost use Rattle.console.specs.Going.{Held};
ghost use Rattle.console.specs.Ran.{Begins};
ghost use Rattle.vcd2trace.specs.Answers.{no_breach, begun_with};
ghost use Rattle.vcd2trace.specs.Laws.{formed, count, laws};

use console::{Ending, Output, Program};
use conversions::Position;
use std::io::{Read, Write};
use streams::Progress;

struct Recalling;

impl Program for Recalling {
    type Kept = Position;

    ghost turn = { undump_turn };

    ghost breaches = { no_breach };

    ghost formed = { formed };

    ghost count = { count };

    ghost header = { read_dump_header_of };

    ghost begin = { begun_with };

    ghost head_room = { undump_head_room };

    ghost parts = { Parted };

    ghost rest = { 104 };

    // A step has three bytes at least, and a trace line 31.
    ghost least = { 3 };

    ghost most = { 31 };

    ghost laws = { laws };

    fn head(head: &[u8], out: &mut [u8]) -> Result<(usize, Position), usize> {
        console::heading(recalling::undump_head(head, out))
    }

    fn block(p: Position, block: &[u8], out: &mut [u8]) -> Progress<Position> {
        recalling::undump_block(p, block, out)
    }

    fn cut(block: &[u8]) -> usize {
        recalling::cut(block)
    }

    // It names no breach.
    fn named(_p: Position) -> u32 {
        0
    }
}

// The program from its header to its end, as console has it for every program.
fn start<R: Read, W: Write>(
    input: &mut R,
    output: &mut Output<W>,
    n: usize,
    block: &mut [u8],
    out: &mut [u8],
) -> Ending
    requires { Held 104 3 31 (length block.old) (length out.old) }
    ensures { Begins no_breach undump_turn Parted begun_with result (read_dump_header_of (front n block.old)) }
{
    console::begin::<Recalling, R, W>(input, output, n, block, out)
}

// 32,768 bytes at a time, and room for a trace line for each three of them and for one line more.
// Stays: the mains differ in sizes alone, but a size of an array cannot come from a constant of the trait.
fn main(rt: HostRuntime) {
    let mut input = rt.stdin();
    let mut output = Output::new(rt.stdout());
    let mut block = [0u8; 32768];
    let mut out = [0u8; 338613];
    let ending = match console::read_head(&mut input, 397, &mut block) {
        Ok(n) => start(&mut input, &mut output, n, &mut block, &mut out),
        Err(e) => e,
    };
    console::tell(&rt, ending, output);
}
