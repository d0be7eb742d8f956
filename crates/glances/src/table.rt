// Hex digits by a table, which its user makes once.
ghost use Rattle.std.specs.Prelude.{◌≡◌, ◌+◌, ◌*◌, ◌^◌, ◌<◌, ◌≤◌, length, slice_index};
ghost use Rattle.glances.specs.Glances.{digit_of, Digits, MaskSeen};

// For each byte the digit that it writes in lower case, and 65,536 where it writes none; then the same for three places more, each of
// which weighs sixteen times as much.
pub fn digits() -> [u32; 1024]
    ensures { Digits result }
{
    let mut table = [0; 1024];
    // Stays: the index is the byte whose digit is looked up, and its entry in each place.
    for b in 0..256 {
        let d = fields::digit_or(b as u8, 65536);
        table[b] = d;
        table[256 + b] = d * 16;
        table[512 + b] = d * 256;
        table[768 + b] = d * 4096;
    }
    table
}

// The digit at p, as it weighs in its place of a column.
pub fn digit_at(digits: &[u32], place: usize, s: &[u8], p: usize) -> u32
    requires { Digits digits.now × (place < 4) × (p < length s.now) }
    ensures { (result ≡ digit_of (slice_index s.now p) * 16 ^ place) × (result ≤ 268435456) }
{
    digits[place * 256 + s[p] as usize]
}

// A column of four digits; no mask where one of them is none.
pub fn mask_at(digits: &[u32], s: &[u8], p: usize) -> u32
    requires { Digits digits.now × (p + 4 ≤ length s.now) }
    ensures { MaskSeen s.now p result }
{
    let a = digit_at(digits, 3, s, p);
    let b = digit_at(digits, 2, s, p + 1);
    let c = digit_at(digits, 1, s, p + 2);
    let d = digit_at(digits, 0, s, p + 3);
    a + b + c + d
}

// The table as a value that carries what is known of it.
#[derive(Drop)]
pub struct DigitTable {
    pub digits: [u32; 1024],
    pub ghost known: { Digits digits },
}

impl DigitTable {
    pub fn new() -> DigitTable {
        DigitTable { digits: digits() }
    }

    // Here and below: the function of that name, over this table.
    pub fn digit_at(&self, place: usize, s: &[u8], p: usize) -> u32
        requires { (place < 4) × (p < length s.now) }
        ensures { (result ≡ digit_of (slice_index s.now p) * 16 ^ place) × (result ≤ 268435456) }
    {
        digit_at(&self.digits, place, s, p)
    }

    pub fn mask_at(&self, s: &[u8], p: usize) -> u32
        requires { p + 4 ≤ length s.now }
        ensures { MaskSeen s.now p result }
    {
        mask_at(&self.digits, s, p)
    }
}
