// The header of a stimulus or a trace, and the lines of the report. Nothing is written before the last test.
#![tactic(auto)]

ghost use Rattle.std.specs.Prelude.{◌≡◌, cond, [], ◌∷◌, ◌++◌, ◌-◌, ◌≤◌, length};
ghost use Rattle.formats.specs.Digits.{decimal};
ghost use Rattle.formats.specs.Headers.{prefix as prefix_of, is_decimal, ranged as ranged_of, number_in, read_header_of, write_header_of, header_written};
ghost use Rattle.formats.specs.Report.{letter_of, index_of, breach_line, end_line, refused_line, write_of, written_of};
ghost use Rattle.headers.specs.Numbers.{numbers_line};

use formats::Word;
use rulebook::Rule;
use rules::Refusal;

// Whether a byte is a decimal digit.
pub fn is_decimal(b: u8) -> bool
    ensures { result ≡ is_decimal b }
{
    b.is_ascii_digit()
}

// The number of a decimal digit.
pub fn digit(b: u8) -> u32
    ensures { (result ≡ b - 48) × (result ≤ 207) }
{
    b.saturating_sub(b'0') as u32
}

// The last test of a header: 1.
pub fn ranged(n: u32, next: usize) -> Result<(u32, usize), Refusal>
    ensures { result ≡ ranged_of n next }
{
    if fields::masters_ok(n) {
        Ok((n, next))
    } else {
        Err(Refusal::Masters)
    }
}

// What stands after the word: n in one digit, or in two with no leading zero, and LF.
// Stays: beside masters_in of scans: what follows the digits and the refusal differ, and so do the definitions that the two meet.
#[tactic(auto, unfolding(formats::specs::Headers::number_in))]
fn number_in(s: &[u8], p: usize) -> Result<(u32, usize), Refusal>
    requires { p ≤ 8 }
    ensures { result ≡ number_in s.now p }
{
    let a = fields::text::byte_at(s, p);
    let b = fields::text::byte_at(s, p + 1);
    let c = fields::text::byte_at(s, p + 2);
    match (a, b, c) {
        (b'0'..=b'9', b'\n', _) => ranged(digit(a), p + 2),
        (b'1'..=b'9', b'0'..=b'9', b'\n') => ranged(digit(a) * 10 + digit(b), p + 3),
        _ => Err(Refusal::Header),
    }
}

// The bytes before n.
fn prefix(w: Word) -> &'static [u8]
    ensures { (result.now ≡ prefix_of w) × (length result.now ≤ 8) }
{
    match w {
        Word::Stim => b"stim\t1\t",
        Word::Trace => b"trace\t1\t",
    }
}

// The header of a word at the start of the input: 2, 1.
#[tactic(auto, unfolding(formats::specs::Headers::read_header_of))]
pub fn read_header(w: Word, s: &[u8]) -> Result<(u32, usize), Refusal>
    ensures { result ≡ read_header_of w s.now }
{
    let word = prefix(w);
    if fields::text::starts_with(s, word) {
        number_in(s, word.len())
    } else {
        Err(Refusal::Header)
    }
}

// Writes a word, and numbers with a byte after each: 9.
fn write_numbers(word: &[u8], numbers: &[(u32, u8)], buf: &mut [u8]) -> Result<usize, Refusal>
    requires { (length word.now ≤ 8) × (length numbers.now ≤ 2) }
    ensures { (result ≡ write_of (numbers_line word.now numbers.now) (length buf.old)) × (buf.new ≡ written_of (numbers_line word.now numbers.now) buf.old) }
{
    let mut size = word.len();
    for (n, _) in numbers {
        size += fields::text::decimal_length(*n) + 1;
    }
    if buf.len() < size {
        return Err(Refusal::Short);
    }
    fields::text::put_word(word, buf);
    let mut at = word.len();
    for (n, after) in numbers {
        at = fields::text::put_decimal(buf, at, *n, *after);
    }
    Ok(at)
}

// Writes a header at the start of the buffer: 1, 9.
pub fn write_header(w: Word, n: u32, buf: &mut [u8]) -> Result<usize, Refusal>
    ensures { (result ≡ write_header_of w n (length buf.old)) × (buf.new ≡ header_written w n buf.old) }
{
    fields::for_masters(n, Ok(()))?;
    write_numbers(prefix(w), &[(n, b'\n')], buf)
}

// A rule's letter and its index.
// Stays: a value for each variant; no derive gives them.
fn name_of(r: Rule) -> (u8, u32)
    ensures { (result.0 ≡ letter_of r) × (result.1 ≡ index_of r) }
{
    match r {
        Rule::A1 => (b'A', 1),
        Rule::A2 => (b'A', 2),
        Rule::A3 => (b'A', 3),
        Rule::A4 => (b'A', 4),
        Rule::A5 => (b'A', 5),
        Rule::A6 => (b'A', 6),
        Rule::A7 => (b'A', 7),
        Rule::A8 => (b'A', 8),
        Rule::A9 => (b'A', 9),
        Rule::G1 => (b'G', 1),
        Rule::G2 => (b'G', 2),
        Rule::G3 => (b'G', 3),
        Rule::G4 => (b'G', 4),
        Rule::G5 => (b'G', 5),
        Rule::G6 => (b'G', 6),
        Rule::G7 => (b'G', 7),
        Rule::G8 => (b'G', 8),
        Rule::G9 => (b'G', 9),
        Rule::G10 => (b'G', 10),
        Rule::G11 => (b'G', 11),
        Rule::G12 => (b'G', 12),
    }
}

// Writes the line of a breach: 9.
pub fn write_breach(cycle: u32, rule: Rule, buf: &mut [u8]) -> Result<usize, Refusal>
    ensures { (result ≡ write_of (breach_line cycle rule) (length buf.old)) × (buf.new ≡ written_of (breach_line cycle rule) buf.old) }
{
    let (letter, index) = name_of(rule);
    let t = fields::text::decimal_length(cycle);
    let k = fields::text::decimal_length(index);
    if buf.len() < t + k + 3 {
        return Err(Refusal::Short);
    }
    let at = fields::text::put_decimal(buf, 0, cycle, b'\t');
    buf[at] = letter;
    let next = fields::text::put_decimal(buf, at + 1, index, b'\n');
    Ok(next)
}

// Writes the last line of a report: 9.
#[tactic(auto, unfolding(formats::specs::Report::end_line))]
pub fn write_end(cycles: u32, breaches: u32, buf: &mut [u8]) -> Result<usize, Refusal>
    ensures { (result ≡ write_of (end_line cycles breaches) (length buf.old)) × (buf.new ≡ written_of (end_line cycles breaches) buf.old) }
{
    write_numbers(b"end\t", &[(cycles, b'\t'), (breaches, b'\n')], buf)
}

// Writes the line of a refusal: 9.
#[tactic(auto, unfolding(formats::specs::Report::refused_line))]
pub fn write_refused(line: u32, r: Refusal, buf: &mut [u8]) -> Result<usize, Refusal>
    ensures { (result ≡ write_of (refused_line line r) (length buf.old)) × (buf.new ≡ written_of (refused_line line r) buf.old) }
{
    let number = signals::number(r);
    write_numbers(b"refused\t", &[(line, b'\t'), (number, b'\n')], buf)
}
