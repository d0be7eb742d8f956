// The watch of an access: what its opening starts, and what a later cycle leaves of it.
ghost use Rattle.std.specs.Prelude.{◌≡◌};
ghost use Rattle.rulebook.specs.Charges.{g3_with, burst_watch, opening_watch, later_watch, opened_after, watch_after};

use crate::columns;
use rulebook::{Judge, Watch};
use rules::{Burst, Cycle};

fn g3_with(k: u32) -> Watch
    ensures { result ≡ g3_with k }
{
    signals::pick(k == 0, Watch::Nothing, Watch::OnG3(k))
}

fn burst_watch(b: Burst) -> Watch
    ensures { result ≡ burst_watch b }
{
    match b {
        Burst::Unspecified => Watch::OnG2,
        Burst::Fixed(k) => g3_with(k.saturating_sub(1)),
        _ => Watch::Nothing,
    }
}

#[tactic(auto, unfolding(rulebook::specs::Rules::is_watched, rulebook::specs::Charges::opening_watch))]
fn opening_watch(c: Cycle) -> Watch
    ensures { result ≡ opening_watch c }
{
    let sort = signals::burst(c.inputs.hburst);
    let watch = burst_watch(sort);
    signals::pick(
        !(c.outputs.granted == 1) & (c.outputs.hmastlock == 1),
        watch,
        Watch::Nothing,
    )
}

fn later_watch(w: Watch, c: Cycle) -> Watch
    ensures { result ≡ later_watch w c }
{
    match w {
        Watch::Nothing => Watch::Nothing,
        Watch::OnG2 => {
            let request = columns::owners_request(c);
            signals::pick(request, Watch::OnG2, Watch::Nothing)
        }
        Watch::OnG3(k) => {
            let less = g3_with(k.saturating_sub(1));
            signals::pick(c.inputs.hready == 1, less, Watch::OnG3(k))
        }
    }
}

#[tactic(auto, unfolding(rulebook::specs::Charges::opened_after))]
pub fn opened_after(j: Judge, c: Cycle) -> bool
    ensures { result ≡ opened_after j c }
{
    let over = columns::handover(c);
    let opens = columns::opens(c);
    signals::pick(over, false, j.opened | opens)
}

#[tactic(auto, unfolding(rulebook::specs::Charges::watch_after))]
pub fn watch_after(j: Judge, c: Cycle) -> Watch
    ensures { result ≡ watch_after j c }
{
    let w = j.watch;
    let over = columns::handover(c);
    let opens = columns::opens(c);
    let on = later_watch(w, c);
    let from = opening_watch(c);
    let first = signals::pick(opens, from, Watch::Nothing);
    let later = signals::pick(j.opened, on, first);
    signals::pick(over, Watch::Nothing, later)
}
