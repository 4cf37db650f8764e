// The request's demands as theorems over the definitions that the public calls are held to. The crate has no code:
// specs/ has the statements, proofs/ their proofs.
#![tactic(auto)]
