// Words at a position.
ghost use Rattle.std.specs.Prelude.{◌≡◌, ◌<◌, length, drop};
ghost use Rattle.waves.specs.Header.{begins as begins_with};

// Whether s begins with the word w.
pub fn begins(s: &[u8], w: &[u8]) -> bool
    ensures { result ≡ begins_with s.now w.now }
{
    s.starts_with(w)
}

// Whether the word w stands at a position.
pub fn begins_at(s: &[u8], p: usize, w: &[u8]) -> bool
    requires { 0 < length w.now }
    ensures { result ≡ begins_with (drop p s.now) w.now }
{
    match s.get(p..) {
        Some(rest) => begins(rest, w),
        None => false,
    }
}
