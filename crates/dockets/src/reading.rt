// The parts of a judge, read from its bytes.
ghost use Rattle.std.specs.Prelude.{◌≡◌, [], ◌∷◌, get_or, take, drop};
ghost use Rattle.words.specs.Words.{number_low};
ghost use Rattle.docketing.specs.Bytes.{watch_of, is_judge, cycle_in, judge_in};

use rulebook::{Judge, Watch};
use rules::{Cycle, Inputs, Outputs};

fn pair(low: u8, high: u8) -> u32
    ensures { result ≡ number_low 2 (low ∷ high ∷ []) 0 }
{
    u16::from_le_bytes([low, high]).into()
}

// Whether some judge has these bytes.
#[tactic(auto, unfolding(docketing::specs::Bytes::is_judge))]
pub fn is_judge(b: &[u8; 42]) -> bool
    ensures { result ≡ is_judge b.now }
{
    (b[1] <= 1) & (b[2] <= 2) & ((b[2] == 2) | (b[3] == 0)) & (b[7] == 0)
}

#[tactic(auto, unfolding(docketing::specs::Bytes::cycle_in))]
fn cycle_in(b: &[u8; 42]) -> Cycle
    ensures { result ≡ cycle_in b.now }
{
    Cycle {
        inputs: Inputs {
            hbusreq: pair(b[12], b[13]),
            hlock: pair(b[14], b[15]),
            hready: b[16].into(),
            htrans: b[17].into(),
            hburst: b[18].into(),
        },
        outputs: Outputs {
            hgrant: pair(b[19], b[20]),
            hmaster: b[21].into(),
            hmastlock: b[22].into(),
            decide: b[23].into(),
            granted: b[24].into(),
            busreq: b[25].into(),
        },
    }
}

#[tactic(auto, unfolding(docketing::specs::Bytes::watch_of))]
fn watch_of(w: u8, k: u8) -> Watch
    ensures { result ≡ watch_of w k }
{
    match w {
        0 => Watch::Nothing,
        1 => Watch::OnG2,
        2.. => Watch::OnG3(k.into()),
    }
}

// The decisions that each master has lost in a row.
fn lost_in(b: &[u8; 42]) -> [u32; 16]
    ensures { result ≡ take 16 (drop 26 b.now) }
{
    let counts: &[u8; 16] = b.last_chunk().unwrap();
    counts.map(u32::from)
}

#[tactic(auto, unfolding(docketing::specs::Bytes::judge_in))]
pub fn judge_in(b: &[u8; 42]) -> Judge
    ensures { result ≡ judge_in b.now }
{
    Judge {
        n: b[0].into(),
        count: u32::from_le_bytes([b[8], b[9], b[10], b[11]]),
        previous: cycle_in(b),
        locked: pair(b[4], b[5]),
        waited: b[6].into(),
        opened: b[1] == 1,
        watch: watch_of(b[2], b[3]),
        lost: lost_in(b),
    }
}
