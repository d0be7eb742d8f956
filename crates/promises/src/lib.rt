#![tactic(auto)]

// No code: the promises over whole runs stand in specs/, their proofs in proofs/.
