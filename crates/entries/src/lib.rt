// The judge's state written into the first 42 bytes of a lent slice, and its mask into the first four of another.
#![tactic(auto)]

mod parts;

ghost use Rattle.std.specs.Prelude.{◌≡◌, ◌≤◌, length};
ghost use Rattle.docketing.specs.Fits.{JudgeFits};
ghost use Rattle.docketing.specs.Calls.{judge_stored, mask_stored};

use rulebook::Judge;

// Writes the bytes of a judge.
pub fn put(j: Judge, b: &mut [u8])
    requires { JudgeFits j × (42 ≤ length b.old) }
    ensures { b.new ≡ judge_stored j b.old }
{
    let b: &mut [u8; 42] = b.first_chunk_mut().unwrap();
    b[..12].copy_from_slice(&parts::head_bytes(j));
    b[12..19].copy_from_slice(&parts::input_bytes(j.previous.inputs));
    b[19..26].copy_from_slice(&parts::output_bytes(j.previous.outputs));
    b[26..].copy_from_slice(&parts::lost_bytes(j.lost));
}

// Writes a mask, low byte first.
pub fn put_mask(m: u32, b: &mut [u8])
    requires { 4 ≤ length b.old }
    ensures { b.new ≡ mask_stored m b.old }
{
    *b.first_chunk_mut().unwrap() = m.to_le_bytes();
}
