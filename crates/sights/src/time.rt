// The line of a step's time.
ghost use Rattle.std.specs.Prelude.{◌≡◌, ◌<◌, ◌≤◌, ◌++◌, IfSome};
ghost use Rattle.rules.specs.Codes.{most_cycles};
ghost use Rattle.waves.specs.Steps.{time_line};
ghost use Rattle.sights.specs.Clock.{Counting};

// The first digit of a time, which is not 0.
fn first_digit(s: &[u8; 128]) -> Option<u32>
    ensures { IfSome result (λ d. Counting s.now d 2) }
{
    match s {
        [b'#', digit @ b'1'..=b'9', ..] => Some((*digit - 48) as u32),
        _ => None,
    }
}

// What stands after the line of a time, if s begins with it: its digits are read one by one.
fn after_digits(t: u32, s: &[u8; 128]) -> Option<&[u8]>
    ensures { IfSome result (λ rest. s.now ≡ time_line t ++ rest.now) }
{
    let mut v = first_digit(s)?;
    // Stays: the index says where the line ends.
    for i in 2..8 {
        let b = s[i];
        if !b.is_ascii_digit() {
            return if (b == b'\n') & (v == t) {
                Some(&s[i + 1..])
            } else {
                None
            };
        }
        v = v * 10 + (b - 48) as u32;
    }
    None
}

// The same of a time of six digits: its line is eight bytes.
fn after_word(t: u32, s: &[u8; 128]) -> Option<&[u8]>
    requires { (100000 ≤ t) × (t < most_cycles) }
    ensures { IfSome result (λ rest. s.now ≡ time_line t ++ rest.now) }
{
    if words::eight(s) == dumps::six_digits(t as u64) {
        Some(&s[8..])
    } else {
        None
    }
}

// The same of any time.
pub fn after_time(t: u32, s: &[u8; 128]) -> Option<&[u8]>
    requires { t < most_cycles }
    ensures { IfSome result (λ rest. s.now ≡ time_line t ++ rest.now) }
{
    if 100000 <= t {
        after_word(t, s)
    } else {
        after_digits(t, s)
    }
}
