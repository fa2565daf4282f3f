#![tactic(auto)]

// The product of a table and a rule, as it is published: definitions and theorems only, no code (that is in lanes and search).
