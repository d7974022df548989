#![tactic(auto)]

// Theory only: calls on a struct that is lent.
