// The codes of a step's lines, as far as it takes to tell an unknown variable.
ghost use Rattle.std.specs.Prelude.{◌≡◌, ◌≤◌, ◌<◌, length, drop};
ghost use Rattle.waves.specs.Reading.{is_scalar, is_vector, is_printed, after_space, code_in, unknown_code, unknown_in};

fn is_scalar(b: u8) -> bool
    ensures { result ≡ is_scalar b }
{
    matches!(b, b'0' | b'1' | b'X' | b'x' | b'Z' | b'z')
}

fn is_vector(b: u8) -> bool
    ensures { result ≡ is_vector b }
{
    matches!(b, b'b' | b'B' | b'r' | b'R')
}

fn is_printed(b: u8) -> bool
    ensures { result ≡ is_printed b }
{
    (b'!' <= b) & (b <= b'~')
}

// What stands after the first space of the line; nothing where it has none.
// Stays: the empty text for none, here and in code_in, as the definitions have it.
fn after_space(s: &[u8]) -> &[u8]
    ensures { result.now ≡ after_space s.now }
{
    for (i, b) in s.iter().enumerate() {
        if *b == b'\n' {
            return &[];
        }
        if *b == b' ' {
            return &s[i + 1..];
        }
    }
    &[]
}

// What a line has from its code on; nothing where it is no value change.
fn code_in(s: &[u8]) -> &[u8]
    ensures { result.now ≡ code_in s.now }
{
    let Some((b, rest)) = s.split_first() else {
        return &[];
    };
    if is_scalar(*b) {
        return rest;
    }
    if is_vector(*b) {
        return after_space(rest);
    }
    &[]
}

// Whether the line that s begins with has a code that is none of the eleven.
fn unknown_at(s: &[u8]) -> bool
    ensures { result ≡ unknown_code (code_in s.now) }
{
    let code = code_in(s);
    let a = fields::text::byte_at(code, 0);
    let b = fields::text::byte_at(code, 1);
    let printed = is_printed(a);
    let more = is_printed(b);
    printed & !((a <= 43) & !more)
}

// Whether some line of the step has one.
pub fn unknown_in(s: &[u8]) -> bool
    ensures { result ≡ unknown_in s.now }
{
    let mut starts = false;
    for (i, b) in s.iter().enumerate() {
        let unknown = unknown_at(&s[i..]);
        if starts & unknown {
            return true;
        }
        starts = *b == b'\n';
    }
    false
}
