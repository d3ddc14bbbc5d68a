// The three demands are theorems about the meaning: specs/ states them, proofs/ proves them. No function stands here.
#![tactic(auto)]
