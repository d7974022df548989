// Theory only: depth-first search of a net, and the walk along its tree.
#![tactic(auto)]
