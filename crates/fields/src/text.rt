// Words and decimal numbers, at a position.
ghost use Rattle.std.specs.Prelude.{◌≡◌, ◌+◌, ◌≤◌, [], ◌∷◌, ◌++◌, length, slice_index};
ghost use Rattle.std.proofs.lemmas.List.Edits.{sets};
ghost use Rattle.formats.specs.Digits.{decimal};
ghost use Rattle.formats.specs.Headers.{starts_with};

// The byte at a position, and 0 past the end.
pub fn byte_at(s: &[u8], i: usize) -> u8
    ensures { result ≡ slice_index s.now i }
{
    s.get(i).copied().unwrap_or(0)
}

// Whether s begins with the word w.
// Stays: the definition has 0 past the end of s, and the slice's own starts_with has no byte there: they differ at a word that ends in NUL.
pub fn starts_with(s: &[u8], w: &[u8]) -> bool
    ensures { result ≡ starts_with s.now w.now }
{
    let mut same = true;
    for (i, b) in w.iter().enumerate() {
        same &= byte_at(s, i) == *b;
    }
    same
}

// Writes the word w at the start of the buffer.
pub fn put_word(w: &[u8], buf: &mut [u8])
    requires { length w.now ≤ length buf.old }
    ensures { buf.new ≡ sets buf.old 0 w.now }
{
    buf[..w.len()].copy_from_slice(w);
}

// The digits of a number in decimal.
pub fn decimal_length(v: u32) -> usize
    ensures { (result ≡ length (decimal v)) × (result ≤ 10) }
{
    v.checked_ilog10().unwrap_or(0) as usize + 1
}

// Writes a number in decimal and the byte after it, its last digit first; answers the position after them.
pub fn put_decimal(buf: &mut [u8], at: usize, v: u32, after: u8) -> usize
    requires { at + length (decimal v) + 1 ≤ length buf.old }
    ensures { (result ≡ at + length (decimal v) + 1) × (buf.new ≡ sets buf.old at (decimal v ++ (after ∷ []))) }
{
    let end = at + decimal_length(v);
    let mut rest = v;
    for i in (at..end).rev() {
        buf[i] = 48 + (rest % 10) as u8;
        rest /= 10;
    }
    buf[end] = after;
    end + 1
}
