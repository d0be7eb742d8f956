// The two kinds of line: their columns at a position, their tests, and how they are written.
ghost use Rattle.std.specs.Prelude.{◌≡◌, ℕ, [], ◌∷◌, ◌++◌, ◌+◌, ◌≤◌, List, length, take, drop, refl};
ghost use Rattle.std.proofs.lemmas.List.Edits.{sets};
ghost use Rattle.rules.specs.Results.{Check};
ghost use Rattle.rules.specs.Valid.{inputs_check, cycle_check};
ghost use Rattle.formats.specs.Fields.{Field, width, parted};
ghost use Rattle.formats.specs.Lines.{stimulus_fields, trace_fields, inputs_at, outputs_at, cycle_at, line_check, stimulus_line, trace_line};

use rules::{Cycle, Inputs, Outputs, Refusal};

pub trait Line: Copy {
    const WIDTH: usize;

    ghost WIDTH: { ℕ };

    ghost fields: { List Field };

    ghost columns: { List ℕ → ℕ → Self };

    ghost tests: { ℕ → Self → Check };

    ghost checks: { ℕ → Self → Check };

    ghost text: { Self → List ℕ };

    // Whether each separator of a line at p stands in its place.
    fn is_parted(s: &[u8], p: usize) -> bool
        requires { p + WIDTH ≤ length s.now }
        ensures { result ≡ parted fields s.now p };

    // The columns that stand at p.
    fn read_columns(s: &[u8], p: usize) -> Self
        requires { p + WIDTH ≤ length s.now }
        ensures { result ≡ columns s.now p };

    // The tests of a line that is read: 4, 5, 6, and 7 of a trace line.
    fn test_read(self, n: u32) -> Result<(), Refusal>
        ensures { result ≡ tests n self };

    // The same tests of a line that is to be written.
    fn test_written(self, n: u32) -> Result<(), Refusal>
        ensures { result ≡ checks n self };

    // Writes the line at the start of the buffer.
    fn put(self, buf: &mut [u8])
        requires { WIDTH ≤ length buf.old }
        ensures { buf.new ≡ sets buf.old 0 (text self) };

    ghost wide: { width fields ≡ WIDTH };

    ghost long: { (a : Self) → length (text a) ≡ WIDTH };
}

impl Line for Inputs {
    const WIDTH: usize = 16;

    ghost WIDTH = { 16 };

    ghost fields = { stimulus_fields };

    ghost columns = { inputs_at };

    ghost tests = { inputs_check };

    ghost checks = { inputs_check };

    ghost text = { stimulus_line };

    ghost wide = { refl };

    ghost long = { λ a. refl };

    fn is_parted(s: &[u8], p: usize) -> bool {
        fields::stimulus_parted(s, p)
    }

    fn read_columns(s: &[u8], p: usize) -> Inputs {
        read_inputs(s, p)
    }

    fn test_read(self, n: u32) -> Result<(), Refusal> {
        signals::check_inputs(n, self)
    }

    fn test_written(self, n: u32) -> Result<(), Refusal> {
        signals::check_inputs(n, self)
    }

    fn put(self, buf: &mut [u8]) {
        put_inputs(self, buf, b'\n');
    }
}

impl Line for Cycle {
    const WIDTH: usize = 31;

    ghost WIDTH = { 31 };

    ghost fields = { trace_fields };

    ghost columns = { cycle_at };

    ghost tests = { line_check };

    ghost checks = { cycle_check };

    ghost text = { trace_line };

    ghost wide = { refl };

    ghost long = { λ a. refl };

    fn is_parted(s: &[u8], p: usize) -> bool {
        fields::trace_parted(s, p)
    }

    fn read_columns(s: &[u8], p: usize) -> Cycle {
        Cycle {
            inputs: read_inputs(s, p),
            outputs: read_outputs(s, p),
        }
    }

    fn test_read(self, n: u32) -> Result<(), Refusal> {
        crate::check_line(n, self)
    }

    fn test_written(self, n: u32) -> Result<(), Refusal> {
        signals::check_cycle(n, self)
    }

    fn put(self, buf: &mut [u8]) {
        put_inputs(self.inputs, buf, b'\t');
        put_outputs(self, buf);
    }
}

// The columns of a stimulus, which open a line of either kind.
fn read_inputs(s: &[u8], p: usize) -> Inputs
    requires { p + 16 ≤ length s.now }
    ensures { result ≡ inputs_at s.now p }
{
    Inputs {
        hbusreq: fields::mask_at(s, p),
        hlock: fields::mask_at(s, p + 5),
        hready: fields::digit_at(s, p + 10),
        htrans: fields::digit_at(s, p + 12),
        hburst: fields::digit_at(s, p + 14),
    }
}

// The columns that a trace line adds.
fn read_outputs(s: &[u8], p: usize) -> Outputs
    requires { p + 31 ≤ length s.now }
    ensures { result ≡ outputs_at s.now p }
{
    Outputs {
        hgrant: fields::mask_at(s, p + 16),
        hmaster: fields::digit_at(s, p + 21),
        hmastlock: fields::digit_at(s, p + 23),
        decide: fields::digit_at(s, p + 25),
        granted: fields::digit_at(s, p + 27),
        busreq: fields::digit_at(s, p + 29),
    }
}

// Writes the columns of a stimulus, and the byte after the last: LF, or a tab where more follows.
fn put_inputs(x: Inputs, buf: &mut [u8], end: u8)
    requires { 16 ≤ length buf.old }
    ensures { buf.new ≡ sets buf.old 0 (take 15 (stimulus_line x) ++ (end ∷ [])) }
{
    fields::put_mask(buf, 0, x.hbusreq, b'\t');
    fields::put_mask(buf, 5, x.hlock, b'\t');
    fields::put_digit(buf, 10, x.hready, b'\t');
    fields::put_digit(buf, 12, x.htrans, b'\t');
    fields::put_digit(buf, 14, x.hburst, end);
}

// Writes the rest of a trace line.
fn put_outputs(c: Cycle, buf: &mut [u8])
    requires { 31 ≤ length buf.old }
    ensures { buf.new ≡ sets buf.old 16 (drop 16 (trace_line c)) }
{
    let o = c.outputs;
    fields::put_mask(buf, 16, o.hgrant, b'\t');
    fields::put_digit(buf, 21, o.hmaster, b'\t');
    fields::put_digit(buf, 23, o.hmastlock, b'\t');
    fields::put_digit(buf, 25, o.decide, b'\t');
    fields::put_digit(buf, 27, o.granted, b'\t');
    fields::put_digit(buf, 29, o.busreq, b'\n');
}
