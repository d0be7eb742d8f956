// The judge over lent bytes: its start, and one recorded cycle.
#![tactic(auto)]

ghost use Rattle.hearings.specs.Hearings.{JudgeSteps, JudgeStarts};

use rules::{Cycle, Refusal};

// The start judge of n masters into the lent bytes: 9, 1.
pub fn start(n: u32, judge: &mut [u8]) -> Result<(), Refusal>
    ensures { JudgeStarts n judge.old result judge.new }
{
    let judge = judge.first_chunk_mut::<42>().ok_or(Refusal::Short)?;
    let started = judging::start(n);
    started.verdict?;
    entries::put(started.judge, judge);
    Ok(())
}

// One recorded cycle of the judge in the lent bytes: 9, then as a step. The mask of the rules broken at it goes to the second buffer.
pub fn step(c: Cycle, judge: &mut [u8], broken: &mut [u8]) -> Result<(), Refusal>
    ensures { JudgeSteps c judge.old broken.old result judge.new broken.new }
{
    let judge = judge.first_chunk_mut::<42>().ok_or(Refusal::Short)?;
    let broken = broken.first_chunk_mut::<4>().ok_or(Refusal::Short)?;
    let j = dockets::see(judge).ok_or(Refusal::State)?;
    let ruled = judging::rule(j, c);
    ruled.verdict?;
    entries::put(ruled.judge, judge);
    entries::put_mask(ruled.mask, broken);
    Ok(())
}
