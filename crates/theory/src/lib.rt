// What the definitions of `rules` imply. The theorems stand in specs/ and proofs/, and proofs/Lib.antt tells in which order to read them;
// there is no code here.
#![tactic(auto)]
