//! Worked sessions, their answers and their costs, computed from the definitions: no call.
#![tactic(auto)]
