// No functions: theorems about the answers of the crates below. specs/ states them, proofs/ proves them.
#![tactic(auto)]
