// Where a block of a dump is cut.
ghost use Rattle.std.specs.Prelude.{◌≡◌, ◌+◌, ◌<◌, length};
ghost use Rattle.recalling.specs.Cuts.{ends_at, CutAt};

// Whether a step ends at i.
fn ends_at(s: &[u8], i: usize) -> bool
    requires { i + 1 < length s.now }
    ensures { result ≡ ends_at s.now i }
{
    (s[i] == b'\n') & (s[i + 1] == b'#')
}

// How many bytes of a block are taken now: those up to the last end of a step, behind which no more bytes are kept than a step can have;
// all of them where there are more.
pub fn cut(s: &[u8]) -> usize
    ensures { CutAt s.now result }
{
    let n = s.len();
    for kept in 1..n.min(105) {
        let taken = n - kept;
        if ends_at(s, taken - 1) {
            return taken;
        }
    }
    if n < 105 { 0 } else { n }
}
