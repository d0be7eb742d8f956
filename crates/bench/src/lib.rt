// The bench's caller: one arbiter state, moved on where it stands by the plain step.
#![tactic(auto)]

ghost use Rattle.std.specs.Prelude.{◌≡◌};
ghost use Rattle.rules.specs.Step.{step_of};
ghost use Rattle.bench.specs.Bench.{said_of, held_after};

use rules::{Inputs, Outputs, Refusal, State};

// One cycle of the state that stands behind s. A refusal leaves that state as it came.
pub fn advance(s: &mut State, x: Inputs) -> Result<Outputs, Refusal>
    ensures { (result ≡ said_of (step_of s.old x)) × (s.new ≡ held_after s.old (step_of s.old x)) }
{
    match arbitration::step(*s, x) {
        Ok((next, shown)) => {
            *s = next;
            Ok(shown)
        }
        Err((refusal, _)) => Err(refusal),
    }
}
