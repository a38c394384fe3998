// No code: facts about the definitions of `model`, as theorems in `proofs/`; what they speak of stands in `specs/`.
#![tactic(auto)]
