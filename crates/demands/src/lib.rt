// No code: the theorems that tie the definitions together, demand by demand, and the marked records.
// specs/ has the statements, proofs/ the proofs.
#![tactic(auto)]
