// A reader as it comes, a writer, and the word that a program ends with; and a program from its header to its end. The contracts say where in a
// buffer the bytes stand that a read brought, and what the functions that only sort an answer return.
#![tactic(auto)]

mod program;

ghost use Rattle.std.specs.Prelude.{◌≡◌, ◌-◌, ◌≤◌, ◌<◌, take, drop, length};
ghost use Rattle.console.specs.Fed.{Fill};
ghost use Rattle.console.specs.Ends.{letter_of, told_of, went_on, ended_with, Given};

pub use program::{Program, begin, heading, whole_lines};
use std::fs::OpenOptions;
use std::io::{ErrorKind, Read, Write};
use std::os::unix::fs::PermissionsExt;
use std::rt::Files;
use streams::Flow;

// How a program ends: done, done with breaches named, its input refused, its input not read, its output not written.
#[derive(Clone, Copy, Debug, PartialEq, Eq)]
pub enum Ending {
    Done,
    Breaches,
    Refused,
    Unread,
    Unwritten,
}

// One read, behind the bytes that are kept in the buffer: how many bytes stand in it then, or that no more come. One that a signal interrupts has
// failed.
pub fn read_on<R: Read>(input: &mut R, kept: usize, buf: &mut [u8]) -> Result<Option<usize>, Ending>
    requires { kept < length buf.old }
    ensures { Fill result kept buf.old buf.new }
{
    match input.read(&mut buf[kept..]) {
        Ok(0) => Ok(None),
        Ok(n) => Ok(Some(kept + n)),
        Err(_) => Err(Ending::Unread),
    }
}

// The bytes from one place to another go to the front of the buffer.
pub fn keep(from: usize, to: usize, buf: &mut [u8])
    requires order { from ≤ to }
    requires inside { to ≤ length buf.old }
    ensures { take (to - from) buf.new ≡ drop from (take to buf.old) }
{
    buf.copy_within(from..to, 0);
}

// Reads until the buffer is full, the input has ended or a read fails. Says how many bytes stand at the front.
// Stays: std's read_exact reads again after a signal, and does not say how many bytes it read before a failure.
fn read_full<R: Read>(input: &mut R, buf: &mut [u8]) -> usize
    ensures { result ≤ length buf.new }
{
    let mut done = 0;
    while done < buf.len() {
        match input.read(&mut buf[done..]) {
            Ok(0) | Err(_) => break,
            Ok(n) => done += n,
        }
    }
    done
}

// A header: as many bytes as one with a single digit has, and one more where the last of them is no LF.
pub fn read_head<R: Read>(input: &mut R, size: usize, buf: &mut [u8]) -> Result<usize, Ending> {
    if size == 0 || buf.len() <= size {
        return Err(Ending::Unread);
    }
    let n = read_full(input, &mut buf[..size]);
    if n < size {
        return ended(input, n);
    }
    if buf[size - 1] == b'\n' {
        return Ok(size);
    }
    match read_full(input, &mut buf[size..size + 1]) {
        0 => ended(input, size),
        _ => Ok(size + 1),
    }
}

// A header that fell short: the input has ended only where one read more says so, and else it could not be read.
fn ended<R: Read>(input: &mut R, n: usize) -> Result<usize, Ending> {
    match input.read(&mut [0u8; 1]) {
        Ok(0) => Ok(n),
        _ => Err(Ending::Unread),
    }
}

// The first n bytes, or all where there are fewer.
pub fn first(n: usize, buf: &[u8]) -> &[u8]
    ensures { result.now ≡ take n buf.now }
{
    buf.get(..n).unwrap_or(buf)
}

// Where a program writes, and whether a write has found that nobody reads there any more.
#[derive(Drop)]
pub struct Output<W> {
    to: W,
    unheard: bool,
}

impl<W> Output<W> {
    pub fn new(to: W) -> Output<W> {
        Output { to, unheard: false }
    }
}

impl<W: Write> Output<W> {
    // Writes all bytes, or stops at the first write that takes nothing or fails, one too that a signal interrupts.
    // Stays: std's write_all writes again after a signal.
    pub fn give(&mut self, bytes: &[u8]) -> Result<(), Ending>
        ensures { Given result }
    {
        let mut done = 0;
        while done < bytes.len() {
            match self.to.write(&bytes[done..]) {
                Ok(0) => return Err(Ending::Unwritten),
                Ok(n) => done += n,
                Err(e) => {
                    self.unheard = e.kind() == ErrorKind::BrokenPipe;
                    return Err(Ending::Unwritten);
                }
            }
        }
        Ok(())
    }
}

// Whether a program goes on after a block: one that stops before its input has ended has refused it.
pub fn goes_on(f: Flow) -> Result<(), Ending>
    ensures { result ≡ went_on f }
{
    match f {
        Flow::GoesOn => Ok(()),
        Flow::Stopped => Err(Ending::Refused),
        Flow::Short => Err(Ending::Refused),
        Flow::Unformed => Err(Ending::Refused),
    }
}

// How a program ends that has come to the end of its input, and has named so many breaches.
pub fn ends_as(breaches: u32) -> Ending
    ensures { result ≡ ended_with breaches }
{
    if breaches == 0 {
        Ending::Done
    } else {
        Ending::Breaches
    }
}

// Stays: a letter beside what it means; as the numbers of the enum they would be 48, 49, 50, 114 and 119.
fn letter(e: Ending) -> u8
    ensures { result ≡ letter_of e }
{
    match e {
        Ending::Done => b'0',
        Ending::Breaches => b'1',
        Ending::Refused => b'2',
        Ending::Unread => b'r',
        Ending::Unwritten => b'w',
    }
}

// The letter, where nobody reads the output any more or not.
fn told(e: Ending, unheard: bool) -> u8
    ensures { result ≡ told_of e unheard }
{
    let word = letter(e);
    if unheard & (word == b'w') { b'p' } else { word }
}

// The descriptor that whoever started the program listens on.
const LISTENER: &str = "/dev/fd/3";

// Tells whoever started the program how it ended: one letter on descriptor 3. Where nobody listens there, nothing is told.
pub fn tell<F: Files, W: Drop>(files: &F, e: Ending, output: Output<W>) {
    let word = [told(e, output.unheard)];
    if listens(files) {
        if let Ok(mut to) = OpenOptions::new().append(true).open(files, LISTENER) {
            let _ = to.write(&word);
        }
    }
}

// Whether the descriptor is open for writing, as the mode of the link that stands for it says.
fn listens<F: Files>(files: &F) -> bool {
    files
        .symlink_metadata(LISTENER)
        .is_ok_and(|link| link.permissions().mode() & 0o200 != 0)
}
