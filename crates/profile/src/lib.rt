// Request l: the one-writer profile. The statements are in specs/, their proofs in proofs/; there is no code.
#![tactic(auto)]
