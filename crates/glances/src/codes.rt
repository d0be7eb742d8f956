// The columns of one digit. The text that zeros would have is taken off their text: of a good column its own bits are left, and what
// else is left is bad.
ghost use Rattle.std.specs.Prelude.{◌≡◌, ◌<◌, ◌≤◌, ◌↔◌, ◌∷◌, length};
ghost use Rattle.rules.specs.Step.{flag_of};
ghost use Rattle.words.specs.Words.{number_low};
ghost use Rattle.glances.specs.Glances.{unbuilt, CodesSeen, codes_bytes, FlagsSeen, flags_bytes};

// Not 0 where a byte is no tab.
pub fn apart(b: u8) -> u64
    ensures { (result ≡ 0) ↔ (b ≡ 9) }
{
    (b as u64).wrapping_sub(9)
}

// HREADY, HTRANS and HBURST, if they are not bad.
// Stays: `bad` beside the columns, here and in Flags, as CodesSeen and FlagsSeen say it: the tests of a line are joined into one number.
#[derive(Clone, Copy)]
pub struct Codes {
    pub bad: u64,
    pub hready: u32,
    pub htrans: u32,
    pub hburst: u32,
}

// 1 where a code of two bits is not built.
fn unbuilt(htrans: u64, hburst: u64) -> u64
    ensures { result ≡ flag_of (unbuilt htrans hburst) }
{
    u64::from((htrans == 1) | (hburst == 2))
}

// The text of three zeros and the bytes between them, from the tab before HREADY to the byte after HBURST, one byte up.
fn no_codes(after: u64) -> u64
    requires { after < 256 }
    ensures { result ≡ number_low 8 (0 ∷ codes_bytes 0 0 0 after) 0 }
{
    0x30093009300900 + after * 0x100000000000000
}

// The codes of a line whose HBURST is followed by the byte `after`.
pub fn codes_at(s: &[u8], after: u64) -> Codes
    requires { (16 ≤ length s.now) × (after < 256) }
    ensures { CodesSeen s.now after result }
{
    let w = words::eight(&s[8..]);
    let x = w.wrapping_sub(no_codes(after));
    let htrans = x / 0x100000000 % 4;
    let hburst = x / 0x1000000000000;
    // the mask has all bits but those of the columns and of the byte before them
    Codes {
        bad: x & 0xfffcfffcfffeff00 | unbuilt(htrans, hburst),
        hready: (x / 0x10000 % 2) as u32,
        htrans: htrans as u32,
        hburst: hburst as u32,
    }
}

// HMASTLOCK, DECIDE, GRANTED and BUSREQ, if they are not bad.
#[derive(Clone, Copy)]
pub struct Flags {
    pub bad: u64,
    pub hmastlock: u32,
    pub decide: u32,
    pub granted: u32,
    pub busreq: u32,
}

// The four flags and the bytes between them, from HMASTLOCK to the end of the line.
pub fn flags_text(hmastlock: u64, decide: u64, granted: u64, busreq: u64) -> u64
    requires { (hmastlock ≤ 1) × (decide ≤ 1) × (granted ≤ 1) × (busreq ≤ 1) }
    ensures { result ≡ number_low 8 (flags_bytes hmastlock decide granted busreq) 0 }
{
    0xa30093009300930
        + hmastlock
        + decide * 0x10000
        + granted * 0x100000000
        + busreq * 0x1000000000000
}

// The flags of a trace line.
pub fn flags_at(s: &[u8]) -> Flags
    requires { 31 ≤ length s.now }
    ensures { FlagsSeen s.now result }
{
    let w = words::eight(&s[23..]);
    let x = w.wrapping_sub(flags_text(0, 0, 0, 0));
    Flags {
        bad: x & 0xfffefffefffefffe,
        hmastlock: (x % 2) as u32,
        decide: (x / 0x10000 % 2) as u32,
        granted: (x / 0x100000000 % 2) as u32,
        busreq: (x / 0x1000000000000) as u32,
    }
}
