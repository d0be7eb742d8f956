// The walk round the masters to the winner of a decision.
ghost use Rattle.std.specs.Prelude.{◌≡◌, ◌<◌, ◌≤◌, ◌^◌};
ghost use Rattle.rules.specs.Winner.{next as next_master, winner as winner_of};

use crate::bit;

// The master after i, with 0 after n - 1.
#[tactic(auto, unfolding(rules::specs::Winner::next))]
fn next(n: u32, i: u32) -> u32
    requires { i < 16 }
    ensures { result ≡ next_master n i }
{
    if i + 1 < n { i + 1 } else { 0 }
}

// The first requester of the mask m met walking g+1, g+2, .. around and ending at g itself.
// Stays: document 01 asks for a loop whose value `break` gives.
pub fn winner(n: u32, g: u32, m: u32) -> Option<u32>
    requires { (n ≤ 16) × (g < n) × (m < 2 ^ n) }
    ensures { result ≡ winner_of n g m }
{
    let mut left: u32 = n;
    let mut i: u32 = next(n, g);
    loop {
        if left == 0 {
            break None;
        }
        if bit(m, i) == 1 {
            break Some(i);
        }
        left = left - 1;
        i = next(n, i);
    }
}
