// The lines of a step's variables, each where the text begins with it: its value, and what stands after it.
ghost use Rattle.std.specs.Prelude.{◌≡◌, ◌+◌, ◌<◌, ◌≤◌, ◌++◌, length, IfSome};
ghost use Rattle.words.specs.Words.{low_first};
ghost use Rattle.waves.specs.Variables.{bits, change};
ghost use Rattle.sights.specs.Sights.{variable, LineOf};

// The line of a variable of one bit.
pub fn flag(code: u8, s: &[u8]) -> Option<(u32, &[u8])>
    requires { 3 ≤ length s.now }
    ensures { IfSome result (λ r. LineOf 1 code s.now r.0 r.1.now) }
{
    let (line, rest) = s.split_at(3);
    if line[1] != code {
        return None;
    }
    match line {
        [bit @ b'0'..=b'1', _, b'\n'] => Some(((*bit - 48) as u32, rest)),
        _ => None,
    }
}

// Eight characters as a number, if they are bits. The number is a guess: it is right if its characters are these.
fn octet(w: u64) -> Option<u32>
    ensures { IfSome result (λ u. (u < 256) × (low_first 8 w ≡ bits 8 u)) }
{
    let x = w & 0x101010101010101;
    let high = x % 0x100000000 * 0x8040201 / 0x1000000 % 16;
    let low = x / 0x100000000 * 0x8040201 / 0x1000000 % 16;
    let guess = high * 16 + low;
    if dumps::spread(guess) == w {
        Some(guess as u32)
    } else {
        None
    }
}

// The sixteen characters of a mask.
fn mask(s: &[u8]) -> Option<u32>
    requires { length s.now ≡ 16 }
    ensures { IfSome result (λ u. s.now ≡ bits 16 u) }
{
    let high = octet(words::eight(s))?;
    let low = octet(words::eight(&s[8..]))?;
    Some(high * 256 + low)
}

// A few characters, one by one.
// Stays: a few characters, sixteen at most, in whatever slice; a const parameter stops at the public `vector`.
fn few(s: &[u8]) -> Option<u32>
    requires { length s.now ≤ 16 }
    ensures { IfSome result (λ u. s.now ≡ bits (length s.now) u) }
{
    let mut v = 0;
    for b in s {
        match b {
            b'0'..=b'1' => v = v * 2 + (*b - 48) as u32,
            _ => return None,
        }
    }
    Some(v)
}

// The number that the characters write, the highest bit first, if they are bits.
fn number(s: &[u8]) -> Option<u32>
    requires { length s.now ≤ 16 }
    ensures { IfSome result (λ u. s.now ≡ bits (length s.now) u) }
{
    if s.len() == 16 { mask(s) } else { few(s) }
}

// The line of a variable of several bits.
pub fn vector<const W: usize>(code: u8, s: &[u8]) -> Option<(u32, &[u8])>
    requires { (2 ≤ W) × (W ≤ 16) × (W + 4 ≤ length s.now) }
    ensures { IfSome result (λ r. LineOf W code s.now r.0 r.1.now) }
{
    let (line, rest) = s.split_at(W + 4);
    if line[W + 2] != code {
        return None;
    }
    if (line[0] == b'b') & (line[W + 1] == b' ') & (line[W + 3] == b'\n') {
        Some((number(&line[1..W + 1])?, rest))
    } else {
        None
    }
}
