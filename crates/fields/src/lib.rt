// The test of n, and the parts of a line at a position: hex columns read and written, separators tested.
#![tactic(auto)]

pub mod text;

ghost use Rattle.std.specs.Prelude.{◌≡◌, ◌+◌, ◌<◌, ◌≤◌, [], ◌∷◌, ◌++◌, length, if◌then◌else◌, nat_lt};
ghost use Rattle.std.proofs.lemmas.List.Edits.{sets};
ghost use Rattle.formats.specs.Digits.{hex_char, hex_digit, hex, number_at};
ghost use Rattle.formats.specs.Fields.{parted};
ghost use Rattle.formats.specs.Lines.{stimulus_fields, trace_fields, for_masters};

use rules::Refusal;
pub use signals::masters_ok;

// The first test of a writer: 1, before what the others found.
pub fn for_masters(n: u32, k: Result<(), Refusal>) -> Result<(), Refusal>
    ensures { result ≡ for_masters n k }
{
    if masters_ok(n) {
        k
    } else {
        Err(Refusal::Masters)
    }
}

// The digit that a byte writes in lower case, and `none` where it writes none.
// Stays: a number in place of none, here and in digit_at and mask_at, as `number_at` of the definitions has it.
#[tactic(auto, unfolding(formats::specs::Digits::hex_digit))]
pub fn digit_or(b: u8, none: u32) -> u32
    ensures { (result ≡ (if nat_lt (hex_digit b) 16 then hex_digit b else none)) × (result ≤ none + 15) }
{
    match b {
        b'0'..=b'9' => (b - b'0') as u32,
        b'a'..=b'f' => (b - 87) as u32,
        _ => none,
    }
}

// A column of one digit, and 16 where it is none.
pub fn digit_at(s: &[u8], p: usize) -> u32
    requires { p < length s.now }
    ensures { result ≡ number_at 1 s.now p }
{
    digit_or(s[p], 16)
}

// A column of four digits. One that is none makes the sum too large for any mask, so a single test tells.
pub fn mask_at(s: &[u8], p: usize) -> u32
    requires { p + 4 ≤ length s.now }
    ensures { result ≡ number_at 4 s.now p }
{
    let a = digit_or(s[p], 65536);
    let b = digit_or(s[p + 1], 65536);
    let c = digit_or(s[p + 2], 65536);
    let d = digit_or(s[p + 3], 65536);
    let v = ((a * 16 + b) * 16 + c) * 16 + d;
    if v < 65536 { v } else { 65536 }
}

// Whether each separator of a stimulus line at p stands in its place.
pub fn stimulus_parted(s: &[u8], p: usize) -> bool
    requires { p + 16 ≤ length s.now }
    ensures { result ≡ parted stimulus_fields s.now p }
{
    (s[p + 4] == 9) & (s[p + 9] == 9) & (s[p + 11] == 9) & (s[p + 13] == 9) & (s[p + 15] == 10)
}

// Whether each separator of a trace line at p stands in its place.
// Stays: beside the other a row of comparisons, where a table of places would need a proof that each is inside the line.
pub fn trace_parted(s: &[u8], p: usize) -> bool
    requires { p + 31 ≤ length s.now }
    ensures { result ≡ parted trace_fields s.now p }
{
    (s[p + 4] == 9)
        & (s[p + 9] == 9)
        & (s[p + 11] == 9)
        & (s[p + 13] == 9)
        & (s[p + 15] == 9)
        & (s[p + 20] == 9)
        & (s[p + 22] == 9)
        & (s[p + 24] == 9)
        & (s[p + 26] == 9)
        & (s[p + 28] == 9)
        & (s[p + 30] == 10)
}

#[tactic(auto, unfolding(formats::specs::Digits::hex_char))]
fn hex_char(d: u32) -> u8
    requires { d < 16 }
    ensures { result ≡ hex_char d }
{
    if d < 10 { 48 + d as u8 } else { 87 + d as u8 }
}

// Writes four digits and the byte after them.
pub fn put_mask(buf: &mut [u8], at: usize, v: u32, after: u8)
    requires { at + 5 ≤ length buf.old }
    ensures { buf.new ≡ sets buf.old at (hex 4 v ++ (after ∷ [])) }
{
    let third = v / 16;
    let second = third / 16;
    let first = second / 16;
    buf[at] = hex_char(first % 16);
    buf[at + 1] = hex_char(second % 16);
    buf[at + 2] = hex_char(third % 16);
    buf[at + 3] = hex_char(v % 16);
    buf[at + 4] = after;
}

// Writes one digit and the byte after it.
pub fn put_digit(buf: &mut [u8], at: usize, v: u32, after: u8)
    requires { at + 2 ≤ length buf.old }
    ensures { buf.new ≡ sets buf.old at (hex 1 v ++ (after ∷ [])) }
{
    buf[at] = hex_char(v % 16);
    buf[at + 1] = after;
}
