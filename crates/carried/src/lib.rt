// Lists of calls across a carry-over: theory.
#![tactic(auto)]
