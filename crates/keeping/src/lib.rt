// What the judge keeps from one cycle to the next.
#![tactic(auto)]

pub mod columns;
mod counts;
mod watch;

ghost use Rattle.std.specs.Prelude.{◌≡◌, ◌&&◌};
ghost use Rattle.rulebook.specs.Columns.{some_master};
ghost use Rattle.rulebook.specs.Charges.{after_decision, reaches, next_judge};
ghost use Rattle.keeping.specs.Room.{Room};
ghost use Rattle.keeping.specs.Lost.{with_lost};

use counts::Counted;
use rulebook::Judge;
use rules::Cycle;

// The judge after a cycle, but for its lost counts.
fn advance(j: Judge, c: Cycle) -> Judge
    requires { Room j }
    ensures { result ≡ with_lost (next_judge j c) j.lost }
{
    let count = j.count + 1;
    let lost = j.lost;
    let run = columns::locked_incr(c);
    let locked = counts::longer(1024, run, j.locked);
    let waited = counts::longer(17, !(c.inputs.hready == 1), j.waited);
    let opened = watch::opened_after(j, c);
    let watch = watch::watch_after(j, c);
    Judge {
        n: j.n,
        count,
        previous: c,
        locked,
        waited,
        opened,
        watch,
        lost,
    }
}

// The judge after a cycle, and whether a lost count reached the limit at it.
pub fn keep(j: Judge, c: Cycle) -> Counted
    requires { Room j }
    ensures { (result.judge ≡ next_judge j c) × (result.reached ≡ (after_decision j && some_master (reaches j c))) }
{
    let p = j.previous;
    let next = advance(j, c);
    if !(j.count == 0) & (p.outputs.decide == 1) {
        counts::count_lost(next, p.inputs.hbusreq, c.outputs.hgrant)
    } else {
        counts::keep_lost(next)
    }
}
