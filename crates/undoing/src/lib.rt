// No code: a head that fails leaves nothing behind, as theorems in `proofs/`.
#![tactic(auto)]
