// The parts of the test of a well-formed judge.
ghost use Rattle.std.specs.Prelude.{◌≡◌, not, ◌||◌, eqb};
ghost use Rattle.std.specs.List.{list_any};
ghost use Rattle.rulebook.specs.Columns.{some_master};
ghost use Rattle.rulebook.specs.State.{wrong_count, some_count, watch_ok, no_watch, no_output, starts_out};

use rulebook::{Judge, Watch};
use rules::Outputs;

pub fn some_wrong(n: u32, lost: [u32; 16]) -> bool
    ensures { result ≡ some_master (wrong_count n lost) }
{
    let mut hit = false;
    for (i, &k) in lost.iter().enumerate() {
        hit |= (n <= k) | ((n as usize <= i) & (k != 0));
    }
    hit
}

fn some_lost(lost: [u32; 16]) -> bool
    ensures { result ≡ list_any (λ k. not (eqb k 0)) lost }
{
    lost.iter().any(|&k| k != 0)
}

pub fn watch_ok(opened: bool, w: Watch) -> bool
    ensures { result ≡ watch_ok opened w }
{
    match w {
        Watch::Nothing => true,
        Watch::OnG2 => opened,
        Watch::OnG3(k) => opened & (1 <= k) & (k <= 3),
    }
}

fn no_watch(w: Watch) -> bool
    ensures { result ≡ no_watch w }
{
    matches!(w, Watch::Nothing)
}

fn no_output(o: Outputs) -> bool
    ensures { result ≡ no_output o }
{
    o == Outputs::default()
}

fn starts_out(j: Judge) -> bool
    ensures { result ≡ starts_out j }
{
    let still = keeping::columns::no_input(j.previous.inputs);
    let dark = no_output(j.previous.outputs);
    let free = no_watch(j.watch);
    let some = some_lost(j.lost);
    still & dark & (j.locked == 0) & (j.waited == 0) & !j.opened & free & !some
}

// Asked only of a judge that has taken no cycle.
pub fn start_ok(j: Judge) -> bool
    ensures { result ≡ (not (eqb j.count 0) || starts_out j) }
{
    if j.count == 0 { starts_out(j) } else { true }
}
