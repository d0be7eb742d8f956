// The run lengths of A1 and A2, and the decisions that each master has lost in a row.
ghost use Rattle.std.specs.Prelude.{◌≡◌, false, ◌<◌, get_or};
ghost use Rattle.rules.specs.Codes.{most_masters};
ghost use Rattle.rulebook.specs.Columns.{some_master};
ghost use Rattle.rulebook.specs.Charges.{longer as longer_of, list_from};
ghost use Rattle.keeping.specs.Room.{Low};
ghost use Rattle.keeping.specs.Lost.{with_lost, Losers, count_by, reaches_by};

use rulebook::Judge;

pub fn longer(k: u32, f: bool, r: u32) -> u32
    requires { r < 1024 }
    ensures { result ≡ longer_of k f r }
{
    let more = r + 1;
    let kept = signals::pick(more == k, 0, more);
    signals::pick(f, kept, 0)
}

// The masters that asked and have no grant.
fn losers(requests: u32, grants: u32) -> u32
    ensures { Losers requests grants result }
{
    (requests & grants) ^ requests
}

// A judge with its lost counts after a cycle, and whether one of them reached the limit.
#[derive(Clone, Copy)]
pub struct Counted {
    pub judge: Judge,
    pub reached: bool,
}

// After a decision, with the requests that it saw and the grants that followed.
pub fn count_lost(j: Judge, requests: u32, grants: u32) -> Counted
    requires { Low j.lost }
    ensures { (result.judge ≡ with_lost j (list_from 0 most_masters (count_by j.n requests grants j.lost))) × (result.reached ≡ some_master (reaches_by j.n requests grants j.lost)) }
{
    let n = j.n;
    let mask = losers(requests, grants);
    let mut next = j;
    let mut reached = false;
    for (i, &lost) in j.lost.iter().enumerate() {
        let more = (mask >> i) % 2 == 1;
        reached |= more & (lost + 1 == n);
        next.lost[i] = longer(n, more, lost);
    }
    Counted {
        judge: next,
        reached,
    }
}

// Without a decision the counts go on as they are.
pub fn keep_lost(j: Judge) -> Counted
    ensures { (result.judge ≡ with_lost j (list_from 0 most_masters (λ i. get_or j.lost i 0))) × (result.reached ≡ false) }
{
    Counted {
        judge: j,
        reached: false,
    }
}
