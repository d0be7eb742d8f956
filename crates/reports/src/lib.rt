// The lines that the two programs write, into a buffer that has room for them: a header, a refusal, an end, the breaches of a cycle.
#![tactic(auto)]

ghost use Rattle.std.specs.Prelude.{◌≡◌, true, ◌^◌, ◌≤◌, ◌<◌, length, get_or};
ghost use Rattle.rules.specs.State.{masters_ok};
ghost use Rattle.rulebook.specs.declared.Rule.TheVariants.{A1};
ghost use Rattle.rulebook.specs.Rules.{rules};
ghost use Rattle.rulebook.specs.Named.{named_by};
ghost use Rattle.formats.specs.declared.Word.TheVariants.{Trace};
ghost use Rattle.formats.specs.Headers.{header};
ghost use Rattle.formats.specs.Report.{breach_line, end_line, refused_line};
ghost use Rattle.streams.specs.Turns.{size_of, Put};
ghost use Rattle.streams.specs.Breaches.{Reported};

use formats::Word;
use rulebook::Rule;
use rules::Refusal;

// The bytes that a writer wrote.
fn size(w: Result<usize, Refusal>) -> usize
    ensures { result ≡ size_of w }
{
    w.unwrap_or(0)
}

// The line of a refusal.
// Stays: room for 31 bytes is a clause of each writer, here and below; an array in its place would be cut out of the buffer at every call.
pub fn put_refused(line: u32, r: Refusal, out: &mut [u8]) -> usize
    requires { 31 ≤ length out.old }
    ensures { Put (refused_line line r) out.old result out.new }
{
    let w = headers::write_refused(line, r, out);
    size(w)
}

// The trace's header.
// Stays: beside put_refused and put_end: each is one line, and its clause another text.
pub fn put_header(n: u32, out: &mut [u8]) -> usize
    requires { (masters_ok n ≡ true) × (31 ≤ length out.old) }
    ensures { Put (header Trace n) out.old result out.new }
{
    let w = headers::write_header(Word::Trace, n, out);
    size(w)
}

// The last line of a report.
pub fn put_end(cycles: u32, breaches: u32, out: &mut [u8]) -> usize
    requires { 31 ≤ length out.old }
    ensures { Put (end_line cycles breaches) out.old result out.new }
{
    let w = headers::write_end(cycles, breaches, out);
    size(w)
}

// The line of a breach.
fn put_breach(cycle: u32, rule: Rule, out: &mut [u8]) -> usize
    requires { 15 ≤ length out.old }
    ensures { Put (breach_line cycle rule) out.old result out.new }
{
    let w = headers::write_breach(cycle, rule, out);
    size(w)
}

// The rules in the order of the report.
const RULES: [Rule; 21] = [
    Rule::A1,
    Rule::A2,
    Rule::A3,
    Rule::A4,
    Rule::A5,
    Rule::A6,
    Rule::A7,
    Rule::A8,
    Rule::A9,
    Rule::G1,
    Rule::G2,
    Rule::G3,
    Rule::G4,
    Rule::G5,
    Rule::G6,
    Rule::G7,
    Rule::G8,
    Rule::G9,
    Rule::G10,
    Rule::G11,
    Rule::G12,
];

fn rule_at(i: usize) -> Rule
    requires { i < 21 }
    ensures { result ≡ get_or rules i A1 }
{
    RULES[i]
}

// How many bytes the breach lines of a cycle have, and how many breaches there are.
#[derive(Clone, Copy)]
pub struct Breaches {
    pub written: usize,
    pub count: u32,
}

// The breach lines of a cycle, whose charges are the digits of a number: from one digit that is 1 to the next.
pub fn put_breaches(cycle: u32, charged: u32, out: &mut [u8]) -> Breaches
    requires { (charged < 2 ^ 21) × (315 ≤ length out.old) }
    ensures { Reported cycle (named_by charged rules) out.old result.written result.count out.new }
{
    // Stays: the loop goes from one digit that is 1 to the next, and not over an index.
    let mut m = charged;
    let mut i: usize = 0;
    let mut w: usize = 0;
    let mut count: u32 = 0;
    while m != 0 {
        let zeros = m.trailing_zeros();
        i += zeros as usize;
        w += put_breach(cycle, rule_at(i), &mut out[w..]);
        m = (m >> zeros) / 2;
        i += 1;
        count += 1;
    }
    Breaches { written: w, count }
}
