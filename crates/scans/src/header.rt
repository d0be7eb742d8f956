// The header of a dump.
ghost use Rattle.std.specs.Prelude.{◌≡◌, ◌≤◌};
ghost use Rattle.waves.specs.Header.{opening as opening_text, closing as closing_text, masters_in, read_dump_header_of};

use rules::Refusal;

// What stands after the opening: n in one digit, or in two with no leading zero, and the closing.
fn masters_in(s: &[u8], p: usize, closing: &[u8]) -> Result<(u32, usize), Refusal>
    requires { (p ≤ 64) × (closing.now ≡ closing_text) }
    ensures { result ≡ masters_in s.now p }
{
    let a = fields::text::byte_at(s, p);
    let b = fields::text::byte_at(s, p + 1);
    let first = headers::is_decimal(a);
    let second = headers::is_decimal(b);
    let tens = headers::digit(a);
    let ones = headers::digit(b);
    let after_one = crate::bytes::begins_at(s, p + 1, closing);
    let after_two = crate::bytes::begins_at(s, p + 2, closing);
    if first & after_one {
        return headers::ranged(tens, p + 1 + closing.len());
    }
    if first & !(a == 48) & second & after_two {
        return headers::ranged(tens * 10 + ones, p + 2 + closing.len());
    }
    Err(Refusal::Dump)
}

fn read_after(s: &[u8], opening: &[u8], closing: &[u8]) -> Result<(u32, usize), Refusal>
    requires { (opening.now ≡ opening_text) × (closing.now ≡ closing_text) }
    ensures { result ≡ read_dump_header_of s.now }
{
    if crate::bytes::begins(s, opening) {
        masters_in(s, opening.len(), closing)
    } else {
        Err(Refusal::Dump)
    }
}

// The header of a dump at the start of the input: 12, 1.
pub fn read_dump_header(s: &[u8]) -> Result<(u32, usize), Refusal>
    ensures { result ≡ read_dump_header_of s.now }
{
    read_after(
        s,
        b"$comment masters ",
        b" $end\n$timescale 1 ns $end\n$scope module ahb $end\n$var wire 16 ! HBUSREQ $end\n$var wire 16 \" HLOCK $end\n$var wire 1 # HREADY $end\n$var wire 2 $ HTRANS $end\n$var wire 3 % HBURST $end\n$var wire 16 & HGRANT $end\n$var wire 4 ' HMASTER $end\n$var wire 1 ( HMASTLOCK $end\n$var wire 1 ) DECIDE $end\n$var wire 1 * GRANTED $end\n$var wire 1 + BUSREQ $end\n$upscope $end\n$enddefinitions $end\n",
    )
}
