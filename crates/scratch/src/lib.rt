#![tactic(auto)]

// What the judge's scratch holds: theory only, no code.
