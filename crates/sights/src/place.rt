// A place in a step: the columns are passed one after the other, each by its line, or where none stands.
ghost use Rattle.std.specs.Prelude.{ℕ, ◌+◌, ◌<◌, ◌≤◌, length, IfSome};
ghost use Rattle.sights.specs.Sights.{LineOf, Passed};

// What stands from the place on, which has room for any line, and the lines before it. Of both together there are few.
#[derive(Drop)]
pub struct Place<'a> {
    pub rest: &'a [u8],
    pub lines: u32,
    ghost room: { 20 ≤ length rest.now },
    ghost few: { lines + length rest.now ≤ 128 },
}

impl<'a> Place<'a> {
    // A column whose value was v: that of its line, if one stands here. A line with the value before is none, nor is one too near the end.
    fn column(&mut self, v: u32, line: Option<(u32, &'a [u8])>) -> u32
        requires { IfSome line (λ r. length r.1.now < length self.old.rest.now) }
        ensures { (w k : ℕ) → IfSome line.entry (λ r. LineOf w k self.old.rest.now r.0 r.1.now) → Passed w k v self.old.rest.now self.old.lines result self.new.rest.now self.new.lines }
    {
        let Some((u, rest)) = line else {
            return v;
        };
        if (u == v) | (rest.len() < 20) {
            return v;
        }
        self.rest = rest;
        self.lines += 1;
        u
    }

    pub fn flag(&mut self, code: u8, v: u32) -> u32
        ensures { Passed 1 code v self.old.rest.now self.old.lines result self.new.rest.now self.new.lines }
    {
        self.column(v, crate::columns::flag(code, self.rest))
    }

    pub fn vector<const W: usize>(&mut self, code: u8, v: u32) -> u32
        requires { (2 ≤ W) × (W ≤ 16) }
        ensures { Passed W code v self.old.rest.now self.old.lines result self.new.rest.now self.new.lines }
    {
        self.column(v, crate::columns::vector::<W>(code, self.rest))
    }
}
