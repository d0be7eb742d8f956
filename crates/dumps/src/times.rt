// The line of a step's time.
ghost use Rattle.std.specs.Prelude.{◌≡◌, ◌/◌, ◌%◌, ◌≤◌, ◌<◌, length};
ghost use Rattle.rules.specs.Codes.{most_cycles};
ghost use Rattle.words.specs.Words.{low_first};
ghost use Rattle.waves.specs.Steps.{time_line};
ghost use Rattle.dumps.specs.Changed.{Put};
ghost use Rattle.dumps.specs.Clock.{six_of};

// The digits of two numbers below a thousand, a byte each, from the second byte on. Both are taken apart at once: a product and a shift
// stand for each division.
fn digits(a: u64, b: u64) -> u64
    requires { (a < 1000) × (b < 1000) }
    ensures { result ≡ six_of (a / 100) (a / 10 % 10) (a % 10) (b / 100) (b / 10 % 10) (b % 10) }
{
    let both = a * 0x100 + b * 0x100000000;
    let p = both * 41 / 0x1000;
    let hundreds = p / 0x100 % 16 * 0x100 + p / 0x100000000 % 16 * 0x100000000;
    let rest = both - hundreds * 100;
    let q = rest * 103 / 0x400;
    let tens = q / 0x100 % 16 * 0x100 + q / 0x100000000 % 16 * 0x100000000;
    let ones = rest - tens * 10;
    hundreds + tens * 0x100 + ones * 0x10000
}

// The line of a time of six digits as one number: with the bytes round them they are eight.
// Stays: a time is a number below a million in each function; a type for it would be made and taken apart at every call.
pub fn six_digits(t: u64) -> u64
    requires { (100000 ≤ t) × (t < most_cycles) }
    ensures { low_first 8 result ≡ time_line t }
{
    digits(t / 1000, t % 1000) + 0xa30303030303023
}

// Writes the line; answers the position after it.
pub fn put_time(t: u32, buf: &mut [u8]) -> usize
    requires { (8 ≤ length buf.old) × (t < most_cycles) }
    ensures { Put buf.old 0 (time_line t) 8 result buf.new }
{
    if 100000 <= t {
        words::put_eight(six_digits(t as u64), buf);
        8
    } else {
        let end = fields::text::put_decimal(buf, 1, t, 10);
        buf[0] = 35;
        end
    }
}
