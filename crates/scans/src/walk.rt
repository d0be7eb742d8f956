// The lines of a step, one variable after the other: the cycle that results, if they are as they should be.
ghost use Rattle.std.specs.Prelude.{ℕ, ◌≡◌, cond, ◌+◌, ◌-◌, ◌≤◌, ◌<◌, true, false, eqb, [], ◌∷◌, length, drop, MatchOption};
ghost use Rattle.formats.specs.Columns.{input_columns, output_columns, input_values, output_values, cycle_values};
ghost use Rattle.waves.specs.Variables.{variables, coded};
ghost use Rattle.waves.specs.Reading.{line_size, placed as placed_of, bits_in, value_in, shaped, values_in, cycle_of};
ghost use Rattle.scans.specs.Walks.{variable, Walk, Stray};

use rules::{Cycle, Inputs, Outputs};

// The bytes of a line before its LF.
fn line_size(s: &[u8]) -> usize
    ensures { (result ≡ line_size s.now) × (result ≤ length s.now) }
{
    for (i, b) in s.iter().enumerate() {
        if *b == b'\n' {
            return i;
        }
    }
    s.len()
}

// The bytes of a line of a variable of this width.
// Stays: a width is a number with a bound in each function, as the table of variables has it; a const parameter would make five of each.
fn size_of(width: usize) -> usize
    requires { width ≤ 16 }
    ensures { (result ≡ cond (eqb width 1) (width + 2) (width + 4)) × (3 ≤ result) × (result ≤ 20) }
{
    if width == 1 { width + 2 } else { width + 4 }
}

// Whether a line of the variable stands at the start.
fn placed(width: usize, code: u8, s: &[u8]) -> bool
    requires { (1 ≤ width) × (width ≤ 16) }
    ensures { result ≡ placed_of (variable width code) s.now }
{
    let n = line_size(s);
    if n + 1 != size_of(width) {
        return false;
    }
    let first = fields::text::byte_at(s, 0);
    let before = fields::text::byte_at(s, n - 2);
    let last = fields::text::byte_at(s, n - 1);
    let end = fields::text::byte_at(s, n);
    (end == b'\n') & (last == code) & ((width == 1) | (first == b'b') & (before == b' '))
}

// The number that the characters write, the highest bit first; one too large where they are no bits.
// Stays: one too large for none, as `bits_in` of the definitions has it; so it is not `few` of sights, which says none.
fn bits_in(s: &[u8]) -> u32
    requires { length s.now ≤ 16 }
    ensures { result ≡ bits_in (length s.now) s.now }
{
    let mut v = 0;
    for b in s {
        match b {
            b'0'..=b'1' => v = v * 2 + (*b - 48) as u32,
            _ => return 1 << s.len(),
        }
    }
    v
}

// The value in the line of a variable: a scalar's bit comes first, a vector's after `b`.
fn value_in(width: usize, s: &[u8]) -> u32
    requires { (width ≤ 16) × (width < length s.now) }
    ensures { (k : ℕ) → result ≡ value_in (variable width k) s.now }
{
    if width == 1 {
        bits_in(&s[..width])
    } else {
        bits_in(&s[1..width + 1])
    }
}

// One variable: its value and what stands after it, or nothing where the shape is wrong.
fn walk<'a>(all: bool, width: usize, code: u8, v: u32, s: &'a [u8]) -> Option<(u32, &'a [u8])>
    requires { (1 ≤ width) × (width ≤ 16) }
    ensures { MatchOption result (Stray all (variable width code ∷ []) (v ∷ []) s.now) (λ r. Walk all (variable width code ∷ []) (v ∷ []) (r.0 ∷ []) s.now r.1.now) }
{
    if !placed(width, code, s) {
        return if all { None } else { Some((v, s)) };
    }
    let u = value_in(width, s);
    let size = size_of(width);
    let (_, rest) = s.split_at(size);
    if all | (u != v) {
        Some((u, rest))
    } else {
        None
    }
}

// The columns of a stimulus.
fn walk_inputs(all: bool, x: Inputs, s: &[u8]) -> Option<(Inputs, &[u8])>
    ensures { MatchOption result (Stray all (coded 33 input_columns) (input_values x) s.now) (λ r. Walk all (coded 33 input_columns) (input_values x) (input_values r.0) s.now r.1.now) }
{
    let (hbusreq, s) = walk(all, 16, b'!', x.hbusreq, s)?;
    let (hlock, s) = walk(all, 16, b'"', x.hlock, s)?;
    let (hready, s) = walk(all, 1, b'#', x.hready, s)?;
    let (htrans, s) = walk(all, 2, b'$', x.htrans, s)?;
    let (hburst, s) = walk(all, 3, b'%', x.hburst, s)?;
    let inputs = Inputs {
        hbusreq,
        hlock,
        hready,
        htrans,
        hburst,
    };
    Some((inputs, s))
}

// The columns that a trace line adds.
fn walk_outputs(all: bool, o: Outputs, s: &[u8]) -> Option<(Outputs, &[u8])>
    ensures { MatchOption result (Stray all (coded 38 output_columns) (output_values o) s.now) (λ r. Walk all (coded 38 output_columns) (output_values o) (output_values r.0) s.now r.1.now) }
{
    let (hgrant, s) = walk(all, 16, b'&', o.hgrant, s)?;
    let (hmaster, s) = walk(all, 4, b'\'', o.hmaster, s)?;
    let (hmastlock, s) = walk(all, 1, b'(', o.hmastlock, s)?;
    let (decide, s) = walk(all, 1, b')', o.decide, s)?;
    let (granted, s) = walk(all, 1, b'*', o.granted, s)?;
    let (busreq, s) = walk(all, 1, b'+', o.busreq, s)?;
    let outputs = Outputs {
        hgrant,
        hmaster,
        hmastlock,
        decide,
        granted,
        busreq,
    };
    Some((outputs, s))
}

// The cycle that results from the lines of a step, if their shape is right.
pub fn changes_in(all: bool, prev: Cycle, s: &[u8]) -> Option<Cycle>
    ensures { MatchOption result (shaped all variables (cycle_values prev) s.now ≡ false) (λ c. (shaped all variables (cycle_values prev) s.now ≡ true) × (c ≡ cycle_of (values_in variables (cycle_values prev) s.now))) }
{
    let (inputs, s) = walk_inputs(all, prev.inputs, s)?;
    let (outputs, s) = walk_outputs(all, prev.outputs, s)?;
    if s.is_empty() {
        Some(Cycle { inputs, outputs })
    } else {
        None
    }
}
