// Theory only: walks, nets, reachability and orientations.
#![tactic(auto)]
