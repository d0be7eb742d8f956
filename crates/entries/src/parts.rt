// The parts of a judge, as its bytes.
ghost use Rattle.std.specs.Prelude.{◌≡◌, ◌<◌};
ghost use Rattle.docketing.specs.Bytes.{watch_byte, left_byte, head_bytes, input_bytes, output_bytes};
ghost use Rattle.docketing.specs.Fits.{InputsFit, OutputsFit, JudgeFits, Low};

use rulebook::{Judge, Watch};
use rules::{Inputs, Outputs};

// Stays: here and below, a value for each variant; no derive gives them.
fn watch_byte(w: Watch) -> u8
    ensures { result ≡ watch_byte w }
{
    match w {
        Watch::Nothing => 0,
        Watch::OnG2 => 1,
        Watch::OnG3(_) => 2,
    }
}

fn left_byte(w: Watch) -> u8
    requires { left_byte w < 256 }
    ensures { result ≡ left_byte w }
{
    match w {
        Watch::Nothing => 0,
        Watch::OnG2 => 0,
        Watch::OnG3(k) => k as u8,
    }
}

// Bytes 0 to 11.
pub fn head_bytes(j: Judge) -> [u8; 12]
    requires { JudgeFits j }
    ensures { result ≡ head_bytes j }
{
    let [run_low, run_high] = (j.locked as u16).to_le_bytes();
    let [first, second, third, fourth] = j.count.to_le_bytes();
    let spare = 0;
    [
        j.n as u8,
        j.opened.into(),
        watch_byte(j.watch),
        left_byte(j.watch),
        run_low,
        run_high,
        j.waited as u8,
        spare,
        first,
        second,
        third,
        fourth,
    ]
}

// Bytes 12 to 18.
#[tactic(auto, unfolding(docketing::specs::Bytes::input_bytes))]
pub fn input_bytes(x: Inputs) -> [u8; 7]
    requires { InputsFit x }
    ensures { result ≡ input_bytes x }
{
    let [requests_low, requests_high] = (x.hbusreq as u16).to_le_bytes();
    let [locks_low, locks_high] = (x.hlock as u16).to_le_bytes();
    [
        requests_low,
        requests_high,
        locks_low,
        locks_high,
        x.hready as u8,
        x.htrans as u8,
        x.hburst as u8,
    ]
}

// Bytes 19 to 25.
#[tactic(auto, unfolding(docketing::specs::Bytes::output_bytes))]
pub fn output_bytes(o: Outputs) -> [u8; 7]
    requires { OutputsFit o }
    ensures { result ≡ output_bytes o }
{
    let [grant_low, grant_high] = (o.hgrant as u16).to_le_bytes();
    [
        grant_low,
        grant_high,
        o.hmaster as u8,
        o.hmastlock as u8,
        o.decide as u8,
        o.granted as u8,
        o.busreq as u8,
    ]
}

// Bytes 26 to 41.
pub fn lost_bytes(lost: [u32; 16]) -> [u8; 16]
    requires { Low lost }
    ensures { result ≡ lost }
{
    lost.map(|count| (count % 256) as u8)
}
