#![tactic(auto)]

// No code: what a dump says stands in specs/. Its reader answers as the reader of trace lines does.
