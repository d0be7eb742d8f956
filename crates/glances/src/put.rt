// The trace line of a stimulus line that was taken: its own text, and six columns more.
ghost use Rattle.std.specs.Prelude.{◌≡◌, ◌<◌, ◌≤◌, length, take};
ghost use Rattle.std.proofs.lemmas.List.Edits.{sets};
ghost use Rattle.words.specs.Words.{number_low};
ghost use Rattle.formats.specs.Lines.{stimulus_line, trace_line};
ghost use Rattle.glances.specs.Glances.{Driven};
ghost use Rattle.glances.specs.Puts.{owner_bytes, outputs_bytes};

use rules::{Cycle, Outputs};

// HGRANT with the single bit g, and HMASTER, with the tabs round them.
fn owner_text(g: u32, hmaster: u32) -> u64
    requires { (g < 16) × (hmaster < 16) }
    ensures { result ≡ number_low 8 (owner_bytes g hmaster) 0 }
{
    let bit: u64 = 1 << (g % 4);
    let grant = bit << (24 - g / 4 * 8);
    let owner = hmaster as u64;
    0x900093030303009 + grant * 0x100 + (48 + owner + (owner + 6) / 16 * 39) * 0x1000000000000
}

// Writes the columns of the outputs, whose HGRANT has the single bit g, from the tab before them on.
pub fn put_outputs(g: u32, o: Outputs, out: &mut [u8])
    requires { (16 ≤ length out.old) × Driven g o }
    ensures { out.new ≡ sets out.old 0 (outputs_bytes o) }
{
    let owner = owner_text(g, o.hmaster);
    let flags = crate::codes::flags_text(
        o.hmastlock as u64,
        o.decide as u64,
        o.granted as u64,
        o.busreq as u64,
    );
    words::put_eight(owner, out);
    words::put_eight(flags, &mut out[8..]);
}

// Writes the trace line of the cycle c, whose stimulus line s begins with, and whose HGRANT has the single bit g.
pub fn put_trace(s: &[u8], g: u32, c: Cycle, out: &mut [u8])
    requires { (16 ≤ length s.now) × (31 ≤ length out.old) × (take 16 s.now ≡ stimulus_line c.inputs) × Driven g c.outputs }
    ensures { out.new ≡ sets out.old 0 (trace_line c) }
{
    let head = words::eight(s);
    let tail = words::eight(&s[8..]);
    let o = c.outputs;
    words::put_eight(head, out);
    words::put_eight(tail, &mut out[8..]);
    put_outputs(g, o, &mut out[15..]);
}
