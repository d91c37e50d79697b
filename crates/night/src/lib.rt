// Whole nights. No code: the theorems stand in proofs/.
#![tactic(auto)]
