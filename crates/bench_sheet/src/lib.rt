// No functions: document 01, "Bench sheet", as one statement in specs/BenchSheet.antt and its proof in proofs/Theorem.antt.
#![tactic(auto)]
