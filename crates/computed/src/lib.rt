// Checks of the definitions by computing, in proofs/: FIPS 197's worked examples, values of AEZ, document 01's twelve facts. No code;
// the library does not wait for them.
#![tactic(auto)]
