// A program from its header to its end: it reads behind the bytes that it keeps, takes whole lines or steps, and keeps the rest. What the four
// programs differ in is a trait with its laws.
#![tactic(auto)]

ghost use Rattle.std.specs.Prelude.{◌≡◌, ◌-◌, ◌≤◌, ◌<◌, ℕ, List, [], length, drop, take as front};
ghost use Rattle.formats.specs.Results.{HeaderRead};
ghost use Rattle.streams.specs.Streams.{Turn, stretch};
ghost use Rattle.streams.specs.Blocks.{room_for, progress_of};
ghost use Rattle.console.specs.Going.{Lines, Held};
ghost use Rattle.console.specs.Ends.{EndsAfter, Met, Answered, ends_of};
ghost use Rattle.console.specs.Ran.{Turned, Ran, Begins};
ghost use Rattle.console.specs.Programs.{Headed, headed_of, CutAt, Taken, Laws};

use crate::{Ending, Output, ends_as, first, goes_on, keep, read_on};
use rules::Refusal;
use std::io::{Read, Write};
use streams::{Flow, Progress};

// What a program is.
//
//   turn, breaches, formed, count == what one line or step does; the breaches named so far; what is well formed; the lines or steps so far
//   header, begin, head_room      == its header, how it begins after one with n, and the room that a header's output needs
//   parts, rest                   == what was read may be cut between a and b, and then b has so many bytes at most
//   least, most                   == a line or step has so many bytes at least, and what it comes to so many at most
pub trait Program {
    // What it keeps from one block to the next.
    type Kept: Copy;

    ghost turn: { Self.Kept → List ℕ → Turn Self.Kept };

    ghost breaches: { Self.Kept → ℕ };

    ghost formed: { Self.Kept → Type 0 };

    ghost count: { Self.Kept → ℕ };

    ghost header: { List ℕ → HeaderRead };

    ghost begin: { ℕ → Self.Kept };

    ghost head_room: { ℕ };

    ghost parts: { List ℕ → List ℕ → Type 0 };

    ghost rest: { ℕ };

    ghost least: { ℕ };

    ghost most: { ℕ };

    // The header: how many bytes it comes to, and what is kept after one that is accepted.
    fn head(head: &[u8], out: &mut [u8]) -> Result<(usize, Self::Kept), usize>
        requires { head_room ≤ length out.old }
        ensures { Headed begin (header head.now) result };

    // Lines or steps.
    fn block(kept: Self::Kept, block: &[u8], out: &mut [u8]) -> Progress<Self::Kept>
        requires formed { formed kept }
        requires room { room_for least most block.now ≤ length out.old }
        ensures { result ≡ progress_of (stretch turn (length block.now) kept block.now) };

    // How many bytes of what was read are whole lines or steps.
    fn cut(block: &[u8]) -> usize
        ensures { CutAt parts block.now result };

    // The breaches that it has named.
    fn named(kept: Self::Kept) -> u32
        ensures { result ≡ breaches kept };

    // What it writes after the end of its input: nothing, unless it says otherwise.
    fn end(_kept: Self::Kept, _out: &mut [u8]) -> Result<usize, Refusal> {
        Ok(0)
    }

    ghost laws: { Laws turn formed count header begin parts rest least };
}

// What a call for a header answered.
pub fn heading<K: Copy>(p: Progress<K>) -> Result<(usize, K), usize>
    ensures { result ≡ headed_of p }
{
    match p.flow {
        Flow::GoesOn => Ok((p.written, p.kept)),
        Flow::Stopped | Flow::Short | Flow::Unformed => Err(p.written),
    }
}

// How many bytes of what was read are whole lines of so many bytes.
pub fn whole_lines(width: usize, block: &[u8]) -> usize
    requires { 1 ≤ width }
    ensures { CutAt (Lines width) block.now result }
{
    block.len() - block.len() % width
}

// Writes what a block came to.
fn give<K: Copy, W: Write>(output: &mut Output<W>, p: Progress<K>, out: &[u8]) -> Result<K, Ending>
    ensures { Answered p result }
{
    output.give(first(p.written, out))?;
    goes_on(p.flow)?;
    Ok(p.kept)
}

// Lines or steps that were read: they are taken, and what they come to is written.
fn take<P: Program, W: Write>(
    output: &mut Output<W>,
    kept: P::Kept,
    block: &[u8],
    out: &mut [u8],
) -> Result<P::Kept, Ending>
    requires formed { P.formed kept }
    requires room { room_for P.least P.most block.now ≤ length out.old }
    ensures { Met (stretch P.turn (length block.now) kept block.now) result }
{
    let made = P::block(kept, block, out);
    give(output, made, out)
}

// The first n bytes of the buffer: their whole lines or steps are taken, and the rest is kept.
// Stays: the two buffers and what a program asks of them are facts of each instance; a struct for them would hold two borrowed buffers through every call.
fn go_on<P: Program, W: Write>(
    output: &mut Output<W>,
    kept: P::Kept,
    n: usize,
    block: &mut [u8],
    out: &mut [u8],
) -> Result<(P::Kept, usize), Ending>
    requires formed { P.formed kept }
    requires held { Held P.rest P.least P.most (length block.old) (length out.old) }
    requires inside { n ≤ length block.old }
    ensures { Taken P.turn P.parts kept n block.old block.new result }
{
    let whole = P::cut(first(n, block));
    let next = take::<P, W>(output, kept, first(whole, block), out)?;
    keep(whole, n, block);
    Ok((next, n - whole))
}

// The end of the input: what is written there, and how the program ends.
fn end<P: Program, W: Write>(output: &mut Output<W>, kept: P::Kept, out: &mut [u8]) -> Ending
    ensures { (given : _) × (result ≡ ends_of given (P.breaches kept)) }
{
    let Ok(written) = P::end(kept, out) else {
        return Ending::Unwritten;
    };
    match output.give(first(written, out)) {
        Ok(()) => ends_as(P::named(kept)),
        Err(e) => e,
    }
}

// The last bytes: nothing comes after them but the end.
fn take_last<P: Program, W: Write>(
    output: &mut Output<W>,
    kept: P::Kept,
    block: &[u8],
    out: &mut [u8],
) -> Ending
    requires formed { P.formed kept }
    requires room { room_for P.least P.most block.now ≤ length out.old }
    ensures { EndsAfter P.breaches (stretch P.turn (length block.now) kept block.now) result }
{
    match take::<P, W>(output, kept, block, out) {
        Ok(last) => end::<P, W>(output, last, out),
        Err(e) => e,
    }
}

// One read, behind the so many bytes that are kept: what is kept then, and how many bytes; or how the program ends.
#[tactic(auto, using(crate::proofs::Onwards::last_closes))]
fn turn<P: Program, R: Read, W: Write>(
    input: &mut R,
    output: &mut Output<W>,
    kept: P::Kept,
    size: usize,
    block: &mut [u8],
    out: &mut [u8],
) -> Result<(P::Kept, usize), Ending>
    requires formed { P.formed kept }
    requires held { Held P.rest P.least P.most (length block.old) (length out.old) }
    requires size { size ≤ P.rest }
    ensures { Turned P.breaches P.turn P.parts kept (front size block.old) block.new result }
{
    match read_on(input, size, block) {
        Ok(Some(n)) => go_on::<P, W>(output, kept, n, block, out),
        Ok(None) => Err(take_last::<P, W>(output, kept, first(size, block), out)),
        Err(e) => Err(e),
    }
}

// Read after read, with no bound on their number: each one that goes on brings a byte at least, and the line or step after 1,000,000 stops the
// program.
fn run<P: Program, R: Read, W: Write>(
    input: &mut R,
    output: &mut Output<W>,
    start: P::Kept,
    block: &mut [u8],
    out: &mut [u8],
) -> Ending
    requires formed { P.formed start }
    requires held { Held P.rest P.least P.most (length block.old) (length out.old) }
    ensures { Ran P.breaches P.turn P.parts start result }
{
    // Stays: the loop counts nothing, and ends where a read says so.
    let mut kept = start;
    let mut size = 0;
    loop {
        match turn::<P, R, W>(input, output, kept, size, block, out) {
            Ok((next, rest)) => {
                kept = next;
                size = rest;
            }
            Err(e) => return e,
        }
    }
}

// The header, and what comes after one that is accepted.
pub fn begin<P: Program, R: Read, W: Write>(
    input: &mut R,
    output: &mut Output<W>,
    n: usize,
    block: &mut [u8],
    out: &mut [u8],
) -> Ending
    requires held { Held P.rest P.least P.most (length block.old) (length out.old) }
    requires head { P.head_room ≤ length out.old }
    ensures { Begins P.breaches P.turn P.parts P.begin result (P.header (front n block.old)) }
{
    match P::head(first(n, block), out) {
        Ok(begun) => match output.give(first(begun.0, out)) {
            Ok(()) => run::<P, R, W>(input, output, begun.1, block, out),
            Err(e) => e,
        },
        Err(written) => match output.give(first(written, out)) {
            Ok(()) => Ending::Refused,
            Err(e) => e,
        },
    }
}
