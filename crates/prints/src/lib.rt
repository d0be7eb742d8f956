// The trace line of a cycle, written by words of eight bytes.
#![tactic(auto)]

ghost use Rattle.std.specs.Prelude.{◌≡◌, [], ◌∷◌, ◌++◌, ◌+◌, ◌/◌, ◌%◌, ◌^◌, ◌≤◌, ◌<◌, length};
ghost use Rattle.std.proofs.lemmas.List.Edits.{sets};
ghost use Rattle.words.specs.Words.{low_first, number_low};
ghost use Rattle.formats.specs.Digits.{tab, hex};
ghost use Rattle.formats.specs.Lines.{trace_line};
ghost use Rattle.glances.specs.Glances.{codes_bytes, Driven};
ghost use Rattle.glances.specs.Puts.{outputs_bytes};
ghost use Rattle.prints.specs.Prints.{digits_low, letters_of, inputs_bytes, grant_bytes, Fits, FitsOut};

use rules::{Cycle, Inputs, Outputs};

// Two masks as one number, with a byte of room after each of their bytes.
// Stays: a mask has sixteen bits in a number of 64, which is what the sums need; a u16 would be widened in each line.
fn bytes_apart(a: u64, b: u64) -> u64
    requires { (a < 65536) × (b < 65536) }
    ensures { result ≡ number_low 8 (b % 256 ∷ 0 ∷ b / 256 ∷ 0 ∷ a % 256 ∷ 0 ∷ a / 256 ∷ 0 ∷ []) 0 }
{
    let w = a * 0x100000000 + b;
    let high = w / 0x100 % 0x100 + w / 0x10000000000 % 0x100 * 0x100000000;
    w + high * 0xff00
}

// Their eight digits, a byte each.
fn digits(a: u64, b: u64) -> u64
    requires { (a < 65536) × (b < 65536) }
    ensures { (result ≡ number_low 8 (digits_low b ++ digits_low a) 0) × (result < 2 ^ 60) }
{
    let w = bytes_apart(a, b);
    let high = w / 0x10 % 0x10
        + w / 0x100000 % 0x10 * 0x10000
        + w / 0x1000000000 % 0x10 * 0x100000000
        + w / 0x10000000000000 % 0x10 * 0x1000000000000;
    w + high * 0xf0
}

// For each of eight digits whether its character is a letter: whether 6 more is 16 or above.
fn letters(d: u64) -> u64
    requires { d < 2 ^ 60 }
    ensures { (result ≡ number_low 8 (letters_of (low_first 8 (d + 434041037028460038))) 0) × (result < 2 ^ 57) }
{
    let e = d + 0x606060606060606;
    e / 0x10 % 2
        + e / 0x1000 % 2 * 0x100
        + e / 0x100000 % 2 * 0x10000
        + e / 0x10000000 % 2 * 0x1000000
        + e / 0x1000000000 % 2 * 0x100000000
        + e / 0x100000000000 % 2 * 0x10000000000
        + e / 0x10000000000000 % 2 * 0x1000000000000
        + e / 0x1000000000000000 % 2 * 0x100000000000000
}

// Two masks as text.
fn masks_text(a: u32, b: u32) -> (u32, u32)
    requires { (a < 65536) × (b < 65536) }
    ensures { (result.0 ≡ number_low 4 (hex 4 a) 0) × (result.1 ≡ number_low 4 (hex 4 b) 0) }
{
    let d = digits(a as u64, b as u64);
    let text = d + 0x3030303030303030 + letters(d) * 39;
    (
        ((text / 0x100000000) as u32).swap_bytes(),
        ((text % 0x100000000) as u32).swap_bytes(),
    )
}

// HREADY, HTRANS, HBURST and the bytes between them, from the tab before them to the tab after them.
fn codes_text(hready: u64, htrans: u64, hburst: u64) -> u64
    requires { (hready ≤ 1) × (htrans ≤ 3) × (hburst ≤ 3) }
    ensures { result ≡ number_low 7 (codes_bytes hready htrans hburst tab) 0 }
{
    0x9300930093009 + hready * 0x100 + htrans * 0x1000000 + hburst * 0x10000000000
}

// Writes the columns of the inputs and a tab after each, and a byte more.
fn put_inputs(x: Inputs, out: &mut [u8])
    requires { (17 ≤ length out.old) × Fits x }
    ensures { out.new ≡ sets out.old 0 (inputs_bytes x ++ (tab ∷ 0 ∷ [])) }
{
    let (requests, locks) = masks_text(x.hbusreq, x.hlock);
    let codes = codes_text(x.hready as u64, x.htrans as u64, x.hburst as u64);
    words::put_eight(requests as u64 + 0x900000000, out);
    words::put_eight(locks as u64, &mut out[5..]);
    words::put_eight(codes, &mut out[9..]);
}

// Writes the trace line of the cycle c, whose HGRANT has the single bit g.
pub fn put_line(g: u32, c: Cycle, line: &mut [u8])
    requires { (31 ≤ length line.old) × Fits c.inputs × Driven g c.outputs }
    ensures { line.new ≡ sets line.old 0 (trace_line c) }
{
    let x = c.inputs;
    let o = c.outputs;
    put_inputs(x, line);
    glances::put_outputs(g, o, &mut line[15..]);
}

// HGRANT and HMASTER, with the tabs round them.
fn grant_text(hgrant: u32, hmaster: u32) -> u64
    requires { (hgrant < 65536) × (hmaster < 16) }
    ensures { result ≡ number_low 8 (grant_bytes hgrant hmaster) 0 }
{
    let (grant, owner) = masks_text(hgrant, hmaster);
    0x900090000000009 + grant as u64 * 0x100 + (owner / 0x1000000) as u64 * 0x1000000000000
}

// Writes the columns of the outputs, from the tab before them on.
fn put_outputs(o: Outputs, out: &mut [u8])
    requires { (16 ≤ length out.old) × FitsOut o }
    ensures { out.new ≡ sets out.old 0 (outputs_bytes o) }
{
    let grant = grant_text(o.hgrant, o.hmaster);
    let flags = glances::flags_text(
        o.hmastlock as u64,
        o.decide as u64,
        o.granted as u64,
        o.busreq as u64,
    );
    words::put_eight(grant, out);
    words::put_eight(flags, &mut out[8..]);
}

// Writes the trace line of the cycle c, whatever its HGRANT is. It is put into its caller, which has the columns at hand.
// Stays: beside put_line, which knows that HGRANT has a single bit and writes it without its digits; the arbiter is as fast as it is by that.
#[inline(always)]
pub fn put_cycle(c: Cycle, line: &mut [u8])
    requires { (31 ≤ length line.old) × Fits c.inputs × FitsOut c.outputs }
    ensures { line.new ≡ sets line.old 0 (trace_line c) }
{
    let x = c.inputs;
    let o = c.outputs;
    put_inputs(x, line);
    put_outputs(o, &mut line[15..]);
}
