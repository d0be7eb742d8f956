#![tactic(auto)]

// What a C simulator lends and gets. What each byte and each call means stands in specs/.
