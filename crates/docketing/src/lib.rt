#![tactic(auto)]

// What a C caller of the judge lends and gets. What each byte and each call means stands in specs/.
