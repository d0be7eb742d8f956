// Where a conversion stands: at its start, and whether a position is well formed.
#![tactic(auto)]

ghost use Rattle.std.specs.Prelude.{◌≡◌};
ghost use Rattle.conversions.specs.Positions.{start_at, position_formed};

use conversions::Position;
use rules::Cycle;

// A conversion at its start, with the line that comes after the header.
pub fn start(n: u32, line: u32) -> Position
    ensures { result ≡ start_at n line }
{
    Position {
        n,
        count: 0,
        before: Cycle::default(),
        line,
    }
}

// Whether a position is well formed.
pub fn formed(p: Position) -> bool
    ensures { result ≡ position_formed p }
{
    let masters = fields::masters_ok(p.n);
    masters & (p.count <= 1000000) & (p.line as u64 <= 12 * (p.count as u64) + 17)
}
