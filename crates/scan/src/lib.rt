// Theory only: definitions and laws of lists, tests and byte numbers that the other crates share.
#![tactic(auto)]
