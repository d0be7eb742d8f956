// The arbiter's state in the first twelve bytes of a lent slice: seen as plain numbers, and written from them.
#![tactic(auto)]

ghost use Rattle.std.specs.Prelude.{◌≡◌, true, false, ◌%◌, ◌/◌, ◌≤◌, ◌<◌, length, MatchOption};
ghost use Rattle.rules.specs.State.{WellFormed};
ghost use Rattle.buses.specs.Buses.{phase_from, phase_number, state_from, Fit};
ghost use Rattle.hosting.specs.Bytes.{phase_byte, left_byte, phase_of};
ghost use Rattle.hosting.specs.Calls.{state_stored};
ghost use Rattle.octets.specs.Octets.{small as small_of, place_of, fitting, sound_in, Holds};

use buses::Bus;

// A state of n masters, in plain numbers.
#[derive(Clone, Copy)]
pub struct Held {
    pub n: u32,
    pub bus: Bus,
}

// HMASTLOCK, GRANTED, the phase and k are read as one number v, in which each has a byte: whether they are below 2, 2, 4 and 4.
fn small(v: u32) -> bool
    ensures { result ≡ small_of v }
{
    v == v % 2 + v / 0x100 % 2 * 0x100 + v / 0x10000 % 4 * 0x10000 + v / 0x1000000 % 4 * 0x1000000
}

// Where they are, the place that they have among 64.
fn place(v: u32) -> u64
    ensures { (result < 64) × (small_of v ≡ true → result ≡ place_of v) }
{
    v as u64 * 0x1020410 / 0x1000000 % 64
}

// Whether a well-formed state may have them there: a bit for each place.
// Stays: one number of 64 bits, since an array of 64 flags is longer and no plainer.
fn fits(i: u64) -> bool
    requires { i < 64 }
    ensures { result ≡ fitting (i % 2) (i / 2 % 2) (i / 4 % 4) (i / 16) }
{
    let table: u64 = 0x3000300030f20f;
    (table >> i) % 2 == 1
}

// The number of the phase there: a hex digit for each phase and k.
// Stays: one number, since an array of sixteen costs the step with numbers 234 instructions a call in place of 171.
fn phase(i: u64) -> u32
    requires { i < 64 }
    ensures { (result ≡ phase_number (phase_of (i / 4 % 4) (i / 16))) × (result ≤ 5) }
{
    let table: u64 = 0x435042504150405;
    ((table >> (i / 4 * 4)) % 8) as u32
}

// The state that the first twelve bytes hold, if they are those of a well-formed one.
pub fn see(b: &[u8]) -> Option<Held>
    requires { 12 ≤ length b.now }
    ensures { MatchOption result (sound_in b.now ≡ false) (λ h. Holds b.now h) }
{
    let n = b[0].into();
    let g = b[1].into();
    let m = b[2].into();
    let v = words::four(&b[3..]);
    let count = words::four(&b[8..]);
    let i = place(v);
    let granted = v / 0x100 % 2;
    let right = fits(i) & small(v) & (b[7] == 0);
    let ranged = (2 <= n)
        & (n <= 16)
        & (g < n)
        & (m < n)
        & ((granted == 1) | (g == m))
        & (count <= 1000000);
    if !(right & ranged) {
        return None;
    }
    let bus = Bus {
        g,
        m,
        hmastlock: v % 2,
        granted,
        phase: phase(i),
        count,
    };
    Some(Held { n, bus })
}

// The byte of the phase with the number k, and the byte of its ready cycles to come.
fn phase_byte(k: u32) -> u8
    requires { k ≤ 5 }
    ensures { result ≡ phase_byte (phase_from k) }
{
    let bytes = [3, 1, 1, 1, 2, 0];
    bytes[k as usize]
}

fn left_byte(k: u32) -> u8
    requires { k ≤ 5 }
    ensures { result ≡ left_byte (phase_from k) }
{
    let bytes = [0, 1, 2, 3, 0, 0];
    bytes[k as usize]
}

// Writes the bytes of a state.
pub fn put(s: Held, b: &mut [u8])
    requires { WellFormed (state_from s.n s.bus) × Fit s.bus × (12 ≤ length b.old) }
    ensures { b.new ≡ state_stored (state_from s.n s.bus) b.old }
{
    let bus = s.bus;
    let [first, second, third, fourth] = bus.count.to_le_bytes();
    *b.first_chunk_mut().unwrap() = [
        s.n as u8,
        bus.g as u8,
        bus.m as u8,
        bus.hmastlock as u8,
        bus.granted as u8,
        phase_byte(bus.phase),
        left_byte(bus.phase),
        0,
        first,
        second,
        third,
        fourth,
    ];
}
