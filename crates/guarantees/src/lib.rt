// Theory only: the theorem page (proofs/Main.antt) and the table of bench examples (specs/Bench.antt).
#![tactic(auto)]
