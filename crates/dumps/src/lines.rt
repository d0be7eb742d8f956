// The lines of a step's variables: each is written if its value changed, or if all are.
ghost use Rattle.std.specs.Prelude.{◌≡◌, ◌+◌, ◌≤◌, ◌<◌, length};
ghost use Rattle.std.proofs.lemmas.List.Edits.{sets};
ghost use Rattle.words.specs.Words.{low_first};
ghost use Rattle.formats.specs.Columns.{input_values, output_values};
ghost use Rattle.waves.specs.Variables.{bits};
ghost use Rattle.waves.specs.Steps.{changes};
ghost use Rattle.dumps.specs.Changed.{variable, changed, input_variables, output_variables, Put};

use rules::{Inputs, Outputs};

// The characters of eight bits as one number: seven copies of them, each nine places after the one before, have the high seven at the
// bottoms of their bytes.
pub fn spread(b: u64) -> u64
    requires { b < 256 }
    ensures { low_first 8 result ≡ bits 8 b }
{
    let copies = b * 0x40201008040201 + b % 2 * 0x8000000000000000;
    (copies / 0x80 & 0x101010101010101) + 0x3030303030303030
}

// Writes eight bits.
// Stays: a buffer and a position (with the buffer's tail in their place each caller adds up sizes and cuts the tail again: no plainer).
fn put_byte(b: u32, buf: &mut [u8], at: usize)
    requires { (b < 256) × (at + 8 ≤ length buf.old) }
    ensures { buf.new ≡ sets buf.old at (bits 8 b) }
{
    words::put_eight(spread(b as u64), &mut buf[at..]);
}

// Writes the low bits of a number, the highest first, one by one.
// Stays: a width is a number with a bound in each function, as the table of variables has it; a const parameter would make five of each.
fn put_few(width: usize, v: u32, buf: &mut [u8], at: usize)
    requires { (width ≤ 16) × (at + width ≤ length buf.old) }
    ensures { buf.new ≡ sets buf.old at (bits width v) }
{
    // Stays: the index is the place of the bit that is written.
    for i in 0..width {
        buf[at + i] = 48 + ((v >> (width - 1 - i)) % 2) as u8;
    }
}

// The same, and the sixteen of a mask by words.
fn put_bits(width: usize, v: u32, buf: &mut [u8], at: usize)
    requires { (width ≤ 16) × (at + width ≤ length buf.old) }
    ensures { buf.new ≡ sets buf.old at (bits width v) }
{
    if width == 16 {
        put_byte(v / 256 % 256, buf, at);
        put_byte(v % 256, buf, at + 8);
    } else {
        put_few(width, v, buf, at);
    }
}

// The line of a variable of several bits, whose value was v and is u; answers the position after it.
fn put_vector(width: usize, all: bool, code: u8, v: u32, u: u32, buf: &mut [u8], at: usize) -> usize
    requires { (2 ≤ width) × (width ≤ 16) × (at + width + 4 ≤ length buf.old) }
    ensures { Put buf.old at (changed all (variable width code) v u) (width + 4) result buf.new }
{
    if all | (u != v) {
        put_bits(width, u, buf, at + 1);
        let end = at + width + 1;
        buf[at] = 98;
        buf[end] = 32;
        buf[end + 1] = code;
        buf[end + 2] = 10;
        end + 3
    } else {
        at
    }
}

// The line of a variable of one bit.
// Stays: beside put_vector (its line has no `b` and no space, so one function would be these two as its arms: no plainer).
fn put_scalar(all: bool, code: u8, v: u32, u: u32, buf: &mut [u8], at: usize) -> usize
    requires { at + 3 ≤ length buf.old }
    ensures { Put buf.old at (changed all (variable 1 code) v u) 3 result buf.new }
{
    if all | (u != v) {
        buf[at] = 48 + (u % 2) as u8;
        buf[at + 1] = code;
        buf[at + 2] = 10;
        at + 3
    } else {
        at
    }
}

// The lines of the inputs, which were p and are x; answers the position after them.
pub fn put_inputs(all: bool, p: Inputs, x: Inputs, buf: &mut [u8], at: usize) -> usize
    requires { at + 56 ≤ length buf.old }
    ensures { Put buf.old at (changes all input_variables (input_values p) (input_values x)) 56 result buf.new }
{
    let a = put_vector(16, all, b'!', p.hbusreq, x.hbusreq, buf, at);
    let b = put_vector(16, all, b'"', p.hlock, x.hlock, buf, a);
    let c = put_scalar(all, b'#', p.hready, x.hready, buf, b);
    let d = put_vector(2, all, b'$', p.htrans, x.htrans, buf, c);
    put_vector(3, all, b'%', p.hburst, x.hburst, buf, d)
}

// The lines of the outputs.
pub fn put_outputs(all: bool, q: Outputs, o: Outputs, buf: &mut [u8], at: usize) -> usize
    requires { at + 40 ≤ length buf.old }
    ensures { Put buf.old at (changes all output_variables (output_values q) (output_values o)) 40 result buf.new }
{
    let a = put_vector(16, all, b'&', q.hgrant, o.hgrant, buf, at);
    let b = put_vector(4, all, b'\'', q.hmaster, o.hmaster, buf, a);
    let c = put_scalar(all, b'(', q.hmastlock, o.hmastlock, buf, b);
    let d = put_scalar(all, b')', q.decide, o.decide, buf, c);
    let e = put_scalar(all, b'*', q.granted, o.granted, buf, d);
    put_scalar(all, b'+', q.busreq, o.busreq, buf, e)
}
