// The words that headers begin with. What a line, a header and a report say, and what reading or writing one answers, stands in specs/.
#![tactic(auto)]

// The word that a header begins with.
#[derive(Clone, Copy)]
pub enum Word {
    Stim,
    Trace,
}
