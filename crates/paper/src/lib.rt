// The definitions, in specs/: all that a reader must believe, a file for each source.
// FIPS 197; the AEZ paper's section 7 and Figures 5 and 6; document 01. No code and no lemma.
#![tactic(auto)]
