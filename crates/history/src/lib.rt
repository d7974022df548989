// Theory only: lists of calls (specs/History.antt), 01's and 02's rules over them (specs/Rules.antt), what their answers say (specs/Log.antt) and demand 3
// (specs/Demand.antt).
#![tactic(auto)]
