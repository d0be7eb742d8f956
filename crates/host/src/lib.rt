// The step and the reset, exported to a C simulator. include/espigambre.h declares them for C.
#![tactic(auto)]

mod cycle;
mod judge;

ghost use Rattle.std.specs.Prelude.{◌≡◌};
ghost use Rattle.rulebook.specs.Step.{number_of};
ghost use Rattle.hosting.specs.Calls.{lent, as_line, as_numbers, StepCall, ResetCall};

use octets::Held;
use rules::{Cycle, Inputs, Refusal};

// The number that a call answers: 0, or that of its refusal.
fn number(verdict: Result<(), Refusal>) -> u32
    ensures { result ≡ number_of verdict }
{
    match verdict {
        Ok(()) => 0,
        Err(r) => signals::number(r),
    }
}

// Stays: beside step_line: another array is cut from the buffer, and other bytes are written into it.
fn step_outputs(x: Inputs, state: &mut [u8], outputs: &mut [u8]) -> Result<(), Refusal>
    ensures { StepCall as_numbers x state.old outputs.old (number_of result) state.new outputs.new }
{
    let state = state.first_chunk_mut().ok_or(Refusal::Short)?;
    let outputs = outputs.first_chunk_mut().ok_or(Refusal::Short)?;
    let shown = cycle::run(x, state)?;
    *outputs = cycle::output_bytes(shown);
    Ok(())
}

// One cycle of the state in the lent bytes: 9, then as a step. The outputs of the cycle go to the second buffer as numbers.
#[unsafe(no_mangle)]
pub extern "C" fn espigambre_step_outputs(
    hbusreq: u32,
    hlock: u32,
    hready: u32,
    htrans: u32,
    hburst: u32,
    state: &mut [u8],
    outputs: &mut [u8],
) -> u32
    ensures { StepCall as_numbers (lent hbusreq hlock hready htrans hburst) state.old outputs.old result state.new outputs.new }
{
    let x = Inputs {
        hbusreq,
        hlock,
        hready,
        htrans,
        hburst,
    };
    number(step_outputs(x, state, outputs))
}

fn step_line(x: Inputs, state: &mut [u8], line: &mut [u8]) -> Result<(), Refusal>
    ensures { StepCall as_line x state.old line.old (number_of result) state.new line.new }
{
    let state = state.first_chunk_mut().ok_or(Refusal::Short)?;
    let line: &mut [u8; 31] = line.first_chunk_mut().ok_or(Refusal::Short)?;
    let g = state[1].into();
    let outputs = cycle::run(x, state)?;
    prints::put_line(g, Cycle { inputs: x, outputs }, line);
    Ok(())
}

// The same, and the line of the cycle goes to the second buffer.
#[unsafe(no_mangle)]
pub extern "C" fn espigambre_step(
    hbusreq: u32,
    hlock: u32,
    hready: u32,
    htrans: u32,
    hburst: u32,
    state: &mut [u8],
    line: &mut [u8],
) -> u32
    ensures { StepCall as_line (lent hbusreq hlock hready htrans hburst) state.old line.old result state.new line.new }
{
    let x = Inputs {
        hbusreq,
        hlock,
        hready,
        htrans,
        hburst,
    };
    number(step_line(x, state, line))
}

fn reset(n: u32, state: &mut [u8]) -> Result<(), Refusal>
    ensures { ResetCall n state.old (number_of result) state.new }
{
    let state = state.first_chunk_mut::<12>().ok_or(Refusal::Short)?;
    let start = arbitration::reset(n)?;
    let bus = buses::bus_of(start);
    octets::put(Held { n: start.n, bus }, state);
    Ok(())
}

// The reset state of n masters into the lent bytes: 9, 1.
#[unsafe(no_mangle)]
pub extern "C" fn espigambre_reset(n: u32, state: &mut [u8]) -> u32
    ensures { ResetCall n state.old result state.new }
{
    number(reset(n, state))
}
