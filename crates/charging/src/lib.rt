// What the judge charges at one cycle, as one number: bit i is that of the i-th rule, in the order of the report.
#![tactic(auto)]

mod flags;

ghost use Rattle.std.specs.Prelude.{◌≡◌, ◌&&◌, map, ◌<◌};
ghost use Rattle.rulebook.specs.Columns.{some_master};
ghost use Rattle.rulebook.specs.Rules.{rules};
ghost use Rattle.rulebook.specs.Charges.{after_decision, reaches, charges};
ghost use Rattle.rulebook.specs.Named.{mask_of};
ghost use Rattle.charging.specs.Ready.{Ready};

use keeping::columns;
use rulebook::Judge;
use rules::Cycle;

// For each rule, in the order of the report, whether it is charged. At the first cycle there is no other to compare with it.
// Stays: two lists, since one that asks at each rule whether the cycle is the first takes 522 instructions a line for 467, and 485 are allowed.
// Stays: `Ready` holds of a judge and a cycle together, which come in apart and by value.
fn charged(j: Judge, c: Cycle, reached: bool) -> [bool; 21]
    requires { Ready j c × (reached ≡ (after_decision j && some_master (reaches j c))) }
    ensures { result ≡ map (charges j c) rules }
{
    let p = j.previous;
    let over = columns::handover(c);
    let a1 = columns::locked_incr(c) & (j.locked + 1 == 1024);
    let a2 = !(c.inputs.hready == 1) & (j.waited + 1 == 17);
    let a8 = flags::a8(c);
    let g1 = flags::g1(c);
    let g2 = over & flags::on_g2(j.watch) & columns::owners_request(c);
    let g3 = over & flags::on_g3(j.watch);
    if j.count == 0 {
        let a9 = flags::a9(c);
        let g12 = flags::g12(c);
        [
            a1, a2, false, false, false, false, false, a8, a9, g1, g2, g3, false, false, false,
            false, false, false, false, false, g12,
        ]
    } else {
        let a3 = flags::a3(p, c);
        let a4 = flags::a4(p, c);
        let a5 = flags::a5(p, c);
        let a6 = flags::a6(p, c);
        let a7 = flags::a7(p, c);
        let g4 = flags::g4(p, c);
        let g5 = flags::g5(p, c);
        let g6 = flags::g6(p, c);
        let g7 = flags::g7(p, c);
        let g8 = flags::g8(p, c);
        let g9 = flags::g9(p, c);
        let g10 = flags::g10(p, c);
        [
            a1, a2, a3, a4, a5, a6, a7, a8, false, g1, g2, g3, g4, g5, g6, g7, g8, g9, g10,
            reached, false,
        ]
    }
}

// The number whose binary digits are these flags, the lowest first.
fn mask(flags: [bool; 21]) -> u32
    ensures { (result ≡ mask_of flags) × (result < 2097152) }
{
    let mut mask = 0;
    for &flag in flags.iter().rev() {
        mask = 2 * mask + u32::from(flag);
    }
    mask
}

// The charges at a cycle, where reached says whether a lost count reached the limit.
pub fn charge_all(j: Judge, c: Cycle, reached: bool) -> u32
    requires { Ready j c × (reached ≡ (after_decision j && some_master (reaches j c))) }
    ensures { (result ≡ mask_of (map (charges j c) rules)) × (result < 2097152) }
{
    mask(charged(j, c, reached))
}
