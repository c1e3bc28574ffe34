// What the holdings keep over every list of calls: claims in specs/, their proofs in proofs/. There is no code here.
#![tactic(auto)]
