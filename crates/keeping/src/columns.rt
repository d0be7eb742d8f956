// What a cycle shows, for what is kept and what is charged.
ghost use Rattle.std.specs.Prelude.{◌≡◌};
ghost use Rattle.rulebook.specs.Columns as columns;
ghost use Rattle.rulebook.specs.Traces as traces;
ghost use Rattle.rulebook.specs.Rules as book;

use rules::{Burst, Cycle, Inputs};

pub fn no_input(x: Inputs) -> bool
    ensures { result ≡ book.no_input x }
{
    x == Inputs::default()
}

#[tactic(auto, unfolding(rulebook::specs::Columns::owners_request))]
pub fn owners_request(c: Cycle) -> bool
    ensures { result ≡ columns.owners_request c }
{
    signals::is_high(c.inputs.hbusreq, c.outputs.hmaster)
}

#[tactic(auto, unfolding(rulebook::specs::Columns::handover))]
pub fn handover(c: Cycle) -> bool
    ensures { result ≡ columns.handover c }
{
    (c.outputs.granted == 1) & (c.inputs.hready == 1)
}

#[tactic(auto, unfolding(rulebook::specs::Traces::opens))]
pub fn opens(c: Cycle) -> bool
    ensures { result ≡ traces.opens c }
{
    (c.inputs.hready == 1) & (c.inputs.htrans == 2)
}

fn unspecified(b: Burst) -> bool
    ensures { result ≡ columns.unspecified b }
{
    matches!(b, Burst::Unspecified)
}

#[tactic(auto, unfolding(rulebook::specs::Rules::locked_incr))]
pub fn locked_incr(c: Cycle) -> bool
    ensures { result ≡ book.locked_incr c }
{
    let sort = signals::burst(c.inputs.hburst);
    let incr = unspecified(sort);
    let request = owners_request(c);
    (c.outputs.hmastlock == 1) & incr & request
}
