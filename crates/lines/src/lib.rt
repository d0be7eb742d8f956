// Stimulus lines and trace lines. Each test is of the whole line, and nothing is written before the last of them.
#![tactic(auto)]

mod kinds;

ghost use Rattle.std.specs.Prelude.{◌≡◌, length};
ghost use Rattle.formats.specs.Lines.{for_masters, fitted, left, line_check, read_stimulus_of, read_trace_of, write_stimulus_of, stimulus_written, write_trace_of, trace_written};
ghost use Rattle.lines.specs.Lines.{read_of};

use kinds::Line;
use rules::{Cycle, Inputs, Refusal};

// The tests of a trace line: HMASTER alone has room for a character that is no digit.
#[tactic(auto, unfolding(formats::specs::Lines::line_check))]
pub fn check_line(n: u32, c: Cycle) -> Result<(), Refusal>
    ensures { result ≡ line_check n c }
{
    let o = c.outputs;
    if 15 < o.hmaster {
        Err(Refusal::Value)
    } else {
        signals::check_cycle(n, c)
    }
}

// The line at a position: 1, no more lines, 3, and the tests of its kind.
#[tactic(auto, unfolding(crate::specs::Lines::read_of, formats::specs::Lines::place))]
fn read<L: Line>(n: u32, s: &[u8], at: usize) -> Result<Option<(L, usize)>, Refusal>
    ensures { result ≡ read_of L.fields L.columns L.tests n s.now at }
{
    if !fields::masters_ok(n) {
        return Err(Refusal::Masters);
    }
    if s.len() < at {
        return Err(Refusal::Shape);
    }
    if at == s.len() {
        return Ok(None);
    }
    if s.len() - at < L::WIDTH {
        return Err(Refusal::Shape);
    }
    if !L::is_parted(s, at) {
        return Err(Refusal::Shape);
    }
    let line = L::read_columns(s, at);
    line.test_read(n)?;
    Ok(Some((line, at + L::WIDTH)))
}

// Writes a line at the start of the buffer: 1, the tests of its kind, 9.
fn write<L: Line>(n: u32, line: L, buf: &mut [u8]) -> Result<usize, Refusal>
    ensures { (result ≡ fitted (for_masters n (L.checks n line)) (length (L.text line)) (length buf.old)) × (buf.new ≡ left (fitted (for_masters n (L.checks n line)) (length (L.text line)) (length buf.old)) (L.text line) buf.old) }
{
    fields::for_masters(n, line.test_written(n))?;
    if buf.len() < L::WIDTH {
        return Err(Refusal::Short);
    }
    line.put(buf);
    Ok(L::WIDTH)
}

// The stimulus line at a position.
pub fn read_stimulus(n: u32, s: &[u8], at: usize) -> Result<Option<(Inputs, usize)>, Refusal>
    ensures { result ≡ read_stimulus_of n s.now at }
{
    read(n, s, at)
}

// The trace line at a position.
pub fn read_trace(n: u32, s: &[u8], at: usize) -> Result<Option<(Cycle, usize)>, Refusal>
    ensures { result ≡ read_trace_of n s.now at }
{
    read(n, s, at)
}

// Writes a stimulus line at the start of the buffer: 1, 4, 5, 6, 9.
#[tactic(auto, unfolding(formats::specs::Lines::write_stimulus_of, formats::specs::Lines::stimulus_written))]
pub fn write_stimulus(n: u32, x: Inputs, buf: &mut [u8]) -> Result<usize, Refusal>
    ensures { (result ≡ write_stimulus_of n x (length buf.old)) × (buf.new ≡ stimulus_written n x buf.old) }
{
    write(n, x, buf)
}

// Writes a trace line at the start of the buffer: 1, 4, 5, 6, 7, 9.
#[tactic(auto, unfolding(formats::specs::Lines::write_trace_of, formats::specs::Lines::trace_written))]
pub fn write_trace(n: u32, c: Cycle, buf: &mut [u8]) -> Result<usize, Refusal>
    ensures { (result ≡ write_trace_of n c (length buf.old)) × (buf.new ≡ trace_written n c buf.old) }
{
    write(n, c, buf)
}
