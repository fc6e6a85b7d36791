// Request m: laws for reordering work. The statements are in specs/, their proofs in proofs/; there is no code.
#![tactic(auto)]
