// The time of a step.
ghost use Rattle.std.specs.Prelude.{◌≡◌, ◌≤◌, true, false, length, take, drop, MatchOption};
ghost use Rattle.waves.specs.Header.{begins};
ghost use Rattle.waves.specs.Steps.{time_line};
ghost use Rattle.waves.specs.Reading.{has_time, time_is};

// Whether a step begins with `#` and a number with no leading zero.
pub fn has_time(s: &[u8]) -> bool
    ensures { result ≡ has_time s.now }
{
    let a = fields::text::byte_at(s, 0);
    let b = fields::text::byte_at(s, 1);
    let c = fields::text::byte_at(s, 2);
    let first = headers::is_decimal(b);
    let second = headers::is_decimal(c);
    (a == 35) & first & !((b == 48) & second)
}

// The line of the time t, at the start of the buffer; answers its bytes.
fn put_line(t: u32, line: &mut [u8; 12]) -> usize
    ensures size { (result ≡ length (time_line t)) × (2 ≤ result) × (result ≤ 12) }
    ensures bytes { take result line.new ≡ time_line t }
{
    line[0] = b'#';
    fields::text::put_decimal(line, 1, t, b'\n')
}

// Whether the number of a step is the time t.
pub fn time_is(t: u32, s: &[u8]) -> bool
    ensures { result ≡ time_is t s.now }
{
    let mut line = [0; 12];
    let size = put_line(t, &mut line);
    let number = crate::bytes::begins(s, &line[..size - 1]);
    let after = fields::text::byte_at(s, size - 1);
    let more = headers::is_decimal(after);
    number & !more
}

// What stands after the line of the time t, if a step begins with it.
pub fn after_line(t: u32, s: &[u8]) -> Option<&[u8]>
    ensures { MatchOption result (begins s.now (time_line t) ≡ false) (λ rest. (begins s.now (time_line t) ≡ true) × (rest.now ≡ drop (length (time_line t)) s.now)) }
{
    let mut line = [0; 12];
    let size = put_line(t, &mut line);
    s.strip_prefix(&line[..size])
}
