// The rules that look at one cycle, t, or compare the previous one, p, with it; and what a watch says of a handover.
ghost use Rattle.std.specs.Prelude.{◌≡◌};
ghost use Rattle.rulebook.specs.Columns as columns;
ghost use Rattle.rulebook.specs.Rules as book;
ghost use Rattle.rulebook.specs.Charges.{on_g2, on_g3};
ghost use Rattle.charging.specs.Ready.{Fits};

use rulebook::Watch;
use rules::{Burst, Cycle};

// Stays: 0 where the burst is not fixed, as `beats_of` has it.
fn beats(b: Burst) -> u32
    ensures { result ≡ columns.beats_of b }
{
    match b {
        Burst::Fixed(k) => k,
        _ => 0,
    }
}

// Some lock is not excused. The masks as a whole say what each master would.
// Stays: `Fits` is asked of cycles that were tested, in four rules of sixteen; a type for it would be made of every cycle.
pub fn a3(p: Cycle, t: Cycle) -> bool
    requires { Fits t }
    ensures { result ≡ book.a3 p t }
{
    let lock = t.inputs.hlock;
    let excused = p.inputs.hbusreq | p.inputs.hlock | t.inputs.hbusreq;
    (lock & excused) != lock
}

pub fn a4(p: Cycle, t: Cycle) -> bool
    ensures { result ≡ book.a4 p t }
{
    !(p.inputs.hready == 1)
        & ((p.inputs.htrans != t.inputs.htrans) | (p.inputs.hburst != t.inputs.hburst))
}

pub fn a5(p: Cycle, t: Cycle) -> bool
    ensures { result ≡ book.a5 p t }
{
    (p.inputs.htrans == 0) & (t.inputs.htrans == 3)
}

pub fn a6(p: Cycle, t: Cycle) -> bool
    ensures { result ≡ book.a6 p t }
{
    let sort = signals::burst(p.inputs.hburst);
    let due = beats(sort);
    (p.inputs.htrans == 2)
        & (0 < due)
        & (p.inputs.hready == 1)
        & !(p.outputs.granted == 1)
        & !(t.inputs.htrans == 3)
}

pub fn a7(p: Cycle, t: Cycle) -> bool
    ensures { result ≡ book.a7 p t }
{
    let over = keeping::columns::handover(p);
    let request = keeping::columns::owners_request(t);
    over & request & !(t.inputs.htrans == 2)
}

pub fn a8(t: Cycle) -> bool
    ensures { result ≡ book.a8 t }
{
    !(t.inputs.hbusreq != 0) & !(t.inputs.htrans == 0)
}

pub fn a9(t: Cycle) -> bool
    ensures { result ≡ book.a9 t }
{
    let x = t.inputs;
    let none = keeping::columns::no_input(x);
    !none
}

pub fn g1(t: Cycle) -> bool
    ensures { result ≡ book.g1 t }
{
    let request = keeping::columns::owners_request(t);
    (t.outputs.busreq == 1) != request
}

pub fn g4(p: Cycle, t: Cycle) -> bool
    ensures { result ≡ book.g4 p t }
{
    (p.outputs.decide == 1) & !(p.inputs.hbusreq == 0) & !(t.outputs.granted == 1)
}

pub fn g5(p: Cycle, t: Cycle) -> bool
    ensures { result ≡ book.g5 p t }
{
    (p.outputs.granted == 1) & ((t.outputs.granted == 1) == (p.inputs.hready == 1))
}

pub fn g6(p: Cycle, t: Cycle) -> bool
    requires { Fits t }
    ensures { result ≡ book.g6 p t }
{
    let owner = signals::single_bit(t.outputs.hmaster);
    (p.inputs.hready == 1) & (p.outputs.hgrant != owner)
}

// A master is in both masks.
pub fn g7(p: Cycle, t: Cycle) -> bool
    requires { Fits p }
    ensures { result ≡ book.g7 p t }
{
    let over = keeping::columns::handover(p);
    over & ((p.inputs.hlock & p.outputs.hgrant) != 0) & !(t.outputs.hmastlock == 1)
}

pub fn g8(p: Cycle, t: Cycle) -> bool
    ensures { result ≡ book.g8 p t }
{
    let over = keeping::columns::handover(p);
    !over
        & ((p.outputs.hmaster != t.outputs.hmaster) | (p.outputs.hmastlock != t.outputs.hmastlock))
}

pub fn g9(p: Cycle, t: Cycle) -> bool
    ensures { result ≡ book.g9 p t }
{
    !(p.outputs.decide == 1) & (p.outputs.hgrant != t.outputs.hgrant)
}

// Some grant is not lawful, as in A3; or master 0 lacks the grant that nobody asked for.
pub fn g10(p: Cycle, t: Cycle) -> bool
    requires { Fits t }
    ensures { result ≡ book.g10 p t }
{
    let grant = t.outputs.hgrant;
    let lawful = p.outputs.hgrant | p.inputs.hbusreq | 1;
    let first = signals::is_high(grant, 0);
    ((grant & lawful) != grant) | ((p.outputs.decide == 1) & !(p.inputs.hbusreq != 0) & !first)
}

pub fn g12(t: Cycle) -> bool
    ensures { result ≡ book.g12 t }
{
    let o = t.outputs;
    !((o.hgrant == 1) & (o.hmaster == 0) & !(o.hmastlock == 1) & !(o.granted == 1))
        | (!(o.decide == 1) & (t.inputs.htrans == 0))
}

pub fn on_g2(w: Watch) -> bool
    ensures { result ≡ on_g2 w }
{
    matches!(w, Watch::OnG2)
}

// More ready cycles are left than this one.
pub fn on_g3(w: Watch) -> bool
    ensures { result ≡ on_g3 w }
{
    matches!(w, Watch::OnG3(k) if 1 < k)
}
