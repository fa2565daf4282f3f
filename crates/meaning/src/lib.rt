#![tactic(auto)]

// What a rule says of an endless path: definitions and theorems only, no code.
