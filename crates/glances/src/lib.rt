// Lines at a glance: whether a line is good, and its columns if so, with few tests. Which refusal another line gets the readers of
// `lines` say.
#![tactic(auto)]

mod codes;
mod put;
mod table;

ghost use Rattle.std.specs.Prelude.{◌≡◌, ◌≤◌, true, length};
ghost use Rattle.rules.specs.State.{masters_ok};
ghost use Rattle.glances.specs.Glances.{Digits};
ghost use Rattle.glances.specs.Sees.{SeesStimulus, SeesTrace};

pub use codes::flags_text;
pub use put::{put_outputs, put_trace};
use rules::{Cycle, Inputs, Outputs};
pub use table::{DigitTable, digits};

// The columns of the stimulus line that s begins with, if it is good.
// Stays: n is a number that the caller tested once; a type for it would be made at every line, or kept in the state, which comes and goes as it is.
pub fn see_stimulus(digits: &[u32], n: u32, s: &[u8]) -> Option<Inputs>
    requires { Digits digits.now × (masters_ok n ≡ true) × (16 ≤ length s.now) }
    ensures { SeesStimulus n s.now result }
{
    let hbusreq = table::mask_at(digits, s, 0);
    let hlock = table::mask_at(digits, s, 5);
    let codes = codes::codes_at(s, 10);
    let absent = ((hbusreq | hlock) >> n) as u64;
    let apart = codes::apart(s[4]);
    let inputs = Inputs {
        hbusreq,
        hlock,
        hready: codes.hready,
        htrans: codes.htrans,
        hburst: codes.hburst,
    };
    let good = codes.bad | absent | apart == 0;
    if good { Some(inputs) } else { None }
}

// The columns of the trace line that s begins with, if it is good.
pub fn see_trace(digits: &[u32], n: u32, s: &[u8]) -> Option<Cycle>
    requires { Digits digits.now × (masters_ok n ≡ true) × (31 ≤ length s.now) }
    ensures { SeesTrace n s.now result }
{
    let hbusreq = table::mask_at(digits, s, 0);
    let hlock = table::mask_at(digits, s, 5);
    let codes = codes::codes_at(s, 9);
    let hgrant = table::mask_at(digits, s, 16);
    let hmaster = table::digit_at(digits, 0, s, 21);
    let flags = codes::flags_at(s);
    let absent = ((hbusreq | hlock | hgrant) >> n) as u64;
    let apart = codes::apart(s[4]) | codes::apart(s[20]) | codes::apart(s[22]);
    let inputs = Inputs {
        hbusreq,
        hlock,
        hready: codes.hready,
        htrans: codes.htrans,
        hburst: codes.hburst,
    };
    let outputs = Outputs {
        hgrant,
        hmaster,
        hmastlock: flags.hmastlock,
        decide: flags.decide,
        granted: flags.granted,
        busreq: flags.busreq,
    };
    let good = (codes.bad | flags.bad | absent | apart == 0) & (hmaster < n);
    if good {
        Some(Cycle { inputs, outputs })
    } else {
        None
    }
}

// The same over a table that carries what is known of it.
impl DigitTable {
    pub fn see_stimulus(&self, n: u32, s: &[u8]) -> Option<Inputs>
        requires { (masters_ok n ≡ true) × (16 ≤ length s.now) }
        ensures { SeesStimulus n s.now result }
    {
        see_stimulus(&self.digits, n, s)
    }

    pub fn see_trace(&self, n: u32, s: &[u8]) -> Option<Cycle>
        requires { (masters_ok n ≡ true) × (31 ≤ length s.now) }
        ensures { SeesTrace n s.now result }
    {
        see_trace(&self.digits, n, s)
    }
}
