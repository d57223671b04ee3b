// Theorems about the definitions of `paper` alone, in proofs/: whatever the code does, they hold. No code.
#![tactic(auto)]
