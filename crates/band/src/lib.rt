// No functions: document 01, "Band". Definitions in specs/, the theorem in proofs/Band.antt.
#![tactic(auto)]
