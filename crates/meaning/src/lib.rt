// No code: what a legal image means, as theorems in `proofs/`.
#![tactic(auto)]
