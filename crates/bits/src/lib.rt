#![tactic(auto)]

// Definitions and laws of bits only: no code.
