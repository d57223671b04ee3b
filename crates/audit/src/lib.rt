// Theorems about the calls, in proofs/: what an auditor reads after the definitions in `paper`. No code; the library does not wait for them.
#![tactic(auto)]
