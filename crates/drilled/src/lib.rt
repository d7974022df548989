// Theory only: the plan and the recovery of the heaviest drill, for every number of middle nodes.
#![tactic(auto)]
