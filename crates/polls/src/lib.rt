// Request i: lookups that end. The statement is in specs/Lookups.antt, its proof in proofs/; there is no code.
#![tactic(auto)]
