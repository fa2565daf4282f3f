#![tactic(auto)]

// The nested depth-first search as a machine over an abstract graph: definitions and theorems only, no code.
