// The text side of the paper in definitions: specs/ has what a reader must believe, proofs/ the laws about it
// and the marked records by computation. There is no code here.
#![tactic(auto)]
