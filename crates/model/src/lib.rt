// The model of the holdings: definitions in specs/, their laws in proofs/. There is no code here.
#![tactic(auto)]
