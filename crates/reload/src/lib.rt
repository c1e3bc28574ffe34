// Saving and loading over every list of calls and loads: claims in specs/, their proofs in proofs/. There is no code here.
#![tactic(auto)]
