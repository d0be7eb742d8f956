// Bytes as one number, low byte first. The compiler makes one load, or one store, of each.
#![tactic(auto)]

ghost use Rattle.std.specs.Prelude.{◌≡◌, ◌≤◌, length};
ghost use Rattle.std.proofs.lemmas.List.Edits.{sets};
ghost use Rattle.words.specs.Words.{low_first, number_low};

// The number of the first four bytes.
// Stays: four and eight are two, since no trait of the library has from_le_bytes, and one here would be longer than both.
pub fn four(s: &[u8]) -> u32
    requires { 4 ≤ length s.now }
    ensures { result ≡ number_low 4 s.now 0 }
{
    u32::from_le_bytes([s[0], s[1], s[2], s[3]])
}

// The number of the first eight bytes.
pub fn eight(s: &[u8]) -> u64
    requires { 8 ≤ length s.now }
    ensures { result ≡ number_low 8 s.now 0 }
{
    u64::from_le_bytes([s[0], s[1], s[2], s[3], s[4], s[5], s[6], s[7]])
}

// Writes a number into eight bytes.
fn put_all(w: u64, out: &mut [u8])
    requires { length out.old ≡ 8 }
    ensures { out.new ≡ low_first 8 w }
{
    *out.first_chunk_mut().unwrap() = w.to_le_bytes();
}

// Writes a number into the first eight bytes. They are cut off first, so that no length is tested where they are written.
pub fn put_eight(w: u64, out: &mut [u8])
    requires { 8 ≤ length out.old }
    ensures { out.new ≡ sets out.old 0 (low_first 8 w) }
{
    put_all(w, &mut out[..8]);
}
