// No code: what sound memory says of the variables on a path, as theorems in `proofs/`.
#![tactic(auto)]
