// Theory only: what the checks, the reader and the planner accepted before links could have the same ends keeps its meaning.
#![tactic(auto)]
