// The judge's start and step, exported to C. include/espigambre.h declares them for C.
ghost use Rattle.docketing.specs.Calls.{recorded, JudgeStepCall, JudgeStartCall};

use crate::number;
use rules::{Cycle, Inputs, Outputs};

// The start judge of n masters into the lent bytes: 9, 1.
#[unsafe(no_mangle)]
pub extern "C" fn espigambre_judge_start(n: u32, judge: &mut [u8]) -> u32
    ensures { JudgeStartCall n judge.old result judge.new }
{
    number(hearings::start(n, judge))
}

// One recorded cycle of the judge in the lent bytes: 9, then as a step. The mask of the rules broken at it goes to the second buffer.
#[unsafe(no_mangle)]
pub extern "C" fn espigambre_judge_step(
    hbusreq: u32,
    hlock: u32,
    hready: u32,
    htrans: u32,
    hburst: u32,
    hgrant: u32,
    hmaster: u32,
    hmastlock: u32,
    decide: u32,
    granted: u32,
    busreq: u32,
    judge: &mut [u8],
    broken: &mut [u8],
) -> u32
    ensures { JudgeStepCall (recorded hbusreq hlock hready htrans hburst hgrant hmaster hmastlock decide granted busreq) judge.old broken.old result judge.new broken.new }
{
    let c = Cycle {
        inputs: Inputs {
            hbusreq,
            hlock,
            hready,
            htrans,
            hburst,
        },
        outputs: Outputs {
            hgrant,
            hmaster,
            hmastlock,
            decide,
            granted,
            busreq,
        },
    };
    number(hearings::step(c, judge, broken))
}
