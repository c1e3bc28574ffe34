// The marked corners of document 01 as one proved list: proofs/Corners.antt. There is no code here.
#![tactic(auto)]
