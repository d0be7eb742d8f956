// A dump written: its header, and a step, into a lent buffer. Nothing is written before the last test.
#![tactic(auto)]

mod lines;
mod times;

ghost use Rattle.std.specs.Prelude.{◌≡◌, ◌∷◌, ◌++◌, ◌+◌, ◌≤◌, ◌<◌, length, drop};
ghost use Rattle.rules.specs.Codes.{most_cycles};
ghost use Rattle.formats.specs.Digits.{decimal};
ghost use Rattle.formats.specs.Report.{write_of, written_of};
ghost use Rattle.waves.specs.Variables.{space};
ghost use Rattle.waves.specs.Header.{write_dump_header_of, dump_header_written};
ghost use Rattle.waves.specs.Steps.{dump_step, in_time, write_step_of, step_written};

pub use lines::spread;
use rules::{Cycle, Refusal};
pub use times::six_digits;

// Writes a text, a number, a space and a text: 9.
fn write_around(first: &[u8], n: u32, last: &[u8], buf: &mut [u8]) -> Result<usize, Refusal>
    requires { length first.now + length last.now ≤ 1000 }
    ensures { (result ≡ write_of (first.now ++ (decimal n ++ (space ∷ last.now))) (length buf.old)) × (buf.new ≡ written_of (first.now ++ (decimal n ++ (space ∷ last.now))) buf.old) }
{
    let k = fields::text::decimal_length(n);
    let size = first.len() + k + 1 + last.len();
    if buf.len() < size {
        return Err(Refusal::Short);
    }
    fields::text::put_word(first, buf);
    let at = fields::text::put_decimal(buf, first.len(), n, 32);
    fields::text::put_word(last, &mut buf[at..]);
    Ok(size)
}

// Writes the header of a dump at the start of the buffer: 1, 9.
pub fn write_dump_header(n: u32, buf: &mut [u8]) -> Result<usize, Refusal>
    ensures { (result ≡ write_dump_header_of n (length buf.old)) × (buf.new ≡ dump_header_written n buf.old) }
{
    fields::for_masters(n, Ok(()))?;
    write_around(
        b"$comment masters ",
        n,
        b"$end\n$timescale 1 ns $end\n$scope module ahb $end\n$var wire 16 ! HBUSREQ $end\n$var wire 16 \" HLOCK $end\n$var wire 1 # HREADY $end\n$var wire 2 $ HTRANS $end\n$var wire 3 % HBURST $end\n$var wire 16 & HGRANT $end\n$var wire 4 ' HMASTER $end\n$var wire 1 ( HMASTLOCK $end\n$var wire 1 ) DECIDE $end\n$var wire 1 * GRANTED $end\n$var wire 1 + BUSREQ $end\n$upscope $end\n$enddefinitions $end\n",
        buf,
    )
}

// Writes the step of cycle t, which is c, after the cycle prev; answers how many bytes it has.
pub fn put_step(prev: Cycle, t: u32, c: Cycle, buf: &mut [u8]) -> usize
    requires { (104 ≤ length buf.old) × (t < most_cycles) }
    ensures { (result ≡ length (dump_step prev t c)) × (buf.new ≡ dump_step prev t c ++ drop (length (dump_step prev t c)) buf.old) }
{
    let all = t == 0;
    let p = prev.inputs;
    let q = prev.outputs;
    let x = c.inputs;
    let o = c.outputs;
    let first = times::put_time(t, buf);
    let second = lines::put_inputs(all, p, x, buf, first);
    lines::put_outputs(all, q, o, buf, second)
}

// The test of the time: 8, before what the others found.
fn in_time(t: u32, k: Result<(), Refusal>) -> Result<(), Refusal>
    ensures { result ≡ in_time t k }
{
    if 1000000 <= t { Err(Refusal::Full) } else { k }
}

// Writes a step that passed the tests: 9.
fn write_good(t: u32, prev: Cycle, c: Cycle, buf: &mut [u8]) -> Result<usize, Refusal>
    requires { t < most_cycles }
    ensures { (result ≡ write_of (dump_step prev t c) (length buf.old)) × (buf.new ≡ written_of (dump_step prev t c) buf.old) }
{
    let mut step = [0; 104];
    let size = put_step(prev, t, c, &mut step);
    if buf.len() < size {
        return Err(Refusal::Short);
    }
    fields::text::put_word(&step[..size], buf);
    Ok(size)
}

// Writes a step at the start of the buffer: 1, 8, 4, 5, 6, 7, 9.
pub fn write_step(n: u32, t: u32, prev: Cycle, c: Cycle, buf: &mut [u8]) -> Result<usize, Refusal>
    ensures { (result ≡ write_step_of n t prev c (length buf.old)) × (buf.new ≡ step_written n t prev c buf.old) }
{
    let k = signals::check_cycle(n, c);
    let timed = in_time(t, k);
    fields::for_masters(n, timed)?;
    write_good(t, prev, c, buf)
}
