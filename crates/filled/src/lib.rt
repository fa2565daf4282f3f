#![tactic(auto)]

// Theory only: what filling the lanes and the starts comes to, and the laws that the code's proofs cite. Nobody has to believe it.
