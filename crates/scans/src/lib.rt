// A dump read: its header, and a step at a position. Each test is of the whole step.
#![tactic(auto)]

mod bytes;
mod codes;
mod header;
mod time;
mod walk;

ghost use Rattle.std.specs.Prelude.{◌≡◌, cond, ◌+◌, ◌≤◌, length, drop};
ghost use Rattle.rules.specs.declared.Refusal.TheVariants.{Shape};
ghost use Rattle.formats.specs.Lines.{line_check};
ghost use Rattle.waves.specs.Steps.{time_line};
ghost use Rattle.waves.specs.Header.{begins};
ghost use Rattle.waves.specs.Reading.{step_text, step_shaped, step_cycle, step_checked, step_in, read_step_of};

pub use header::read_dump_header;
use rules::{Cycle, Refusal};

// The bytes of the step that s begins with: up to the next line that begins with `#`, or the end of what is looked at.
fn step_size(s: &[u8]) -> usize
    ensures { (result ≡ length (step_text s.now)) × (result ≤ length s.now) }
{
    let most = s.len().min(105);
    // Stays: the index is what is answered.
    for i in 0..most {
        let next = fields::text::byte_at(s, i + 1);
        if (s[i] == b'\n') & (next == b'#') {
            return i + 1;
        }
    }
    most
}

// A step whose variables are known: 3, and the last tests, 4, 5, 6 and 7.
fn shape_in(
    n: u32,
    t: u32,
    prev: Cycle,
    s: &[u8],
    next: usize,
) -> Result<Option<(Cycle, usize)>, Refusal>
    ensures { result ≡ cond (step_shaped t prev s.now) (step_checked (line_check n (step_cycle t prev s.now)) (step_cycle t prev s.now) next) (Err Shape) }
{
    let lines = time::after_line(t, s).ok_or(Refusal::Shape)?;
    let cycle = walk::changes_in(t == 0, prev, lines).ok_or(Refusal::Shape)?;
    lines::check_line(n, cycle)?;
    Ok(Some((cycle, next)))
}

// A step's text: 13, 8, 14, and the rest.
fn step_in(
    n: u32,
    t: u32,
    prev: Cycle,
    s: &[u8],
    next: usize,
) -> Result<Option<(Cycle, usize)>, Refusal>
    ensures { result ≡ step_in n t prev s.now next }
{
    let has = time::has_time(s);
    let right = time::time_is(t, s);
    if has & !right {
        return Err(Refusal::Time);
    }
    if (1000000 <= t) & right {
        return Err(Refusal::Full);
    }
    if codes::unknown_in(s) {
        return Err(Refusal::Variable);
    }
    shape_in(n, t, prev, s, next)
}

// The step of cycle t, after the cycle prev, at a position: 1, 13, 8, 14, 3, 4, 5, 6, 7.
pub fn read_step(
    n: u32,
    t: u32,
    prev: Cycle,
    s: &[u8],
    at: usize,
) -> Result<Option<(Cycle, usize)>, Refusal>
    ensures { result ≡ read_step_of n t prev s.now at }
{
    if !fields::masters_ok(n) {
        return Err(Refusal::Masters);
    }
    if s.len() < at {
        return Err(Refusal::Shape);
    }
    if at == s.len() {
        return Ok(None);
    }
    let rest = &s[at..];
    let size = step_size(rest);
    step_in(n, t, prev, &rest[..size], at + size)
}
