// The rule of FIPS 197's S-box, computed over all bytes, in proofs/: `circuit` needs it, and what stands on that.
// No code.
#![tactic(auto)]
