#![tactic(auto)]

// What the workspace of a search holds: theory only, no code.
