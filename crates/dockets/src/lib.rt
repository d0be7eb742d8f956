// The judge's state in the first 42 bytes of a lent slice, seen as a judge.
#![tactic(auto)]

mod reading;

ghost use Rattle.std.specs.Prelude.{◌≡◌, ◌≤◌, length};
ghost use Rattle.docketing.specs.Bytes.{bytes_judge};

use rulebook::Judge;

// The judge that the first 42 bytes are, well formed or not, if they are those of one.
pub fn see(b: &[u8]) -> Option<Judge>
    requires { 42 ≤ length b.now }
    ensures { result ≡ bytes_judge b.now }
{
    let first = b.first_chunk().unwrap();
    if reading::is_judge(first) {
        Some(reading::judge_in(first))
    } else {
        None
    }
}
