// The three demands as theorems over the definitions that the functions are equated with. Their statements stand in specs/, their proofs in proofs/.

#![tactic(auto)]
