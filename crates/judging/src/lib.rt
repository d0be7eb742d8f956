// The judge of document 01, one cycle at a time: its state goes in by value and comes back.
#![tactic(auto)]

mod form;

ghost use Rattle.std.specs.Prelude.{◌≡◌, true, ◌<◌};
ghost use Rattle.rules.specs.Codes.{most_cycles};
ghost use Rattle.rules.specs.Valid.{cycle_check};
ghost use Rattle.rulebook.specs.State.{start_judge, start_of, well_formed};
ghost use Rattle.rulebook.specs.Named.{flags_in};
ghost use Rattle.rulebook.specs.Step.{refused_of, taken_of, checked_of, judge_of};
ghost use Rattle.charging.specs.Ready.{Ready};
ghost use Rattle.judging.specs.Ruled.{ruled_of};

use rulebook::{Judge, Judgement, Started, Watch};
use rules::{Cycle, Refusal};

fn start_judge(n: u32) -> Judge
    ensures { result ≡ start_judge n }
{
    Judge {
        n,
        count: 0,
        previous: Cycle::default(),
        locked: 0,
        waited: 0,
        opened: false,
        watch: Watch::Nothing,
        lost: [0; 16],
    }
}

// The judge of n masters, or refusal 1 beside a judge of none.
pub fn start(n: u32) -> Started
    ensures { result ≡ start_of n }
{
    if signals::masters_ok(n) {
        Started {
            judge: start_judge(n),
            verdict: Ok(()),
        }
    } else {
        Started {
            judge: start_judge(0),
            verdict: Err(Refusal::Masters),
        }
    }
}

// Whether a judge is well formed.
pub fn well_formed(j: Judge) -> bool
    ensures { result ≡ well_formed j }
{
    let masters = signals::masters_ok(j.n);
    let good = signals::check_cycle(j.n, j.previous).is_ok();
    let wrong = form::some_wrong(j.n, j.lost);
    let watch = form::watch_ok(j.opened, j.watch);
    let start = form::start_ok(j);
    masters
        & (j.count <= 1000000)
        & good
        & (j.locked < 1024)
        & (j.waited < 17)
        & !wrong
        & watch
        & start
}

// The answer of a step with its charges as one number: bit i is that of the i-th rule, in the order of the report.
// Stays: a verdict beside the judge, as in `Judgement`.
#[derive(Clone, Copy)]
pub struct Ruled {
    pub judge: Judge,
    pub verdict: Result<(), Refusal>,
    pub mask: u32,
}

fn refused(j: Judge, r: Refusal) -> Ruled
    ensures { result ≡ ruled_of (refused_of j r) }
{
    Ruled {
        judge: j,
        verdict: Err(r),
        mask: 0,
    }
}

// A cycle that is taken: what it charges, and the judge after it.
fn take(j: Judge, c: Cycle) -> Ruled
    requires { Ready j c }
    ensures { result ≡ ruled_of (taken_of j c) }
{
    let kept = keeping::keep(j, c);
    Ruled {
        judge: kept.judge,
        verdict: Ok(()),
        mask: charging::charge_all(j, c, kept.reached),
    }
}

// A cycle of a well-formed judge below the count limit: 4, 5, 6, 7.
fn checked(j: Judge, c: Cycle) -> Ruled
    requires { (well_formed j ≡ true) × (j.count < most_cycles) }
    ensures { result ≡ ruled_of (checked_of (cycle_check j.n c) j c) }
{
    match signals::check_cycle(j.n, c) {
        Ok(()) => take(j, c),
        Err(r) => refused(j, r),
    }
}

// One cycle: what it charges and the judge after it, or the first refusal of 10, 8, 4, 5, 6, 7 with the judge as it came.
pub fn rule(j: Judge, c: Cycle) -> Ruled
    ensures { result ≡ ruled_of (judge_of j c) }
{
    if !well_formed(j) {
        return refused(j, Refusal::State);
    }
    if 1000000 <= j.count {
        return refused(j, Refusal::Full);
    }
    checked(j, c)
}

// The digits of a number as flags.
fn flags_in(number: u32) -> [bool; 21]
    ensures { result ≡ flags_in 21 number }
{
    let mut flags = [false; 21];
    let mut m = number;
    for flag in flags.iter_mut() {
        *flag = m % 2 == 1;
        m /= 2;
    }
    flags
}

// The same cycle with a flag for each rule.
pub fn step(j: Judge, c: Cycle) -> Judgement
    ensures { result ≡ judge_of j c }
{
    let ruled = rule(j, c);
    let charged = flags_in(ruled.mask);
    Judgement {
        judge: ruled.judge,
        verdict: ruled.verdict,
        charged,
    }
}
