//! What operations on options stand on: laws of an index over the items of an array, and of the
//! same composed with what it is put over. Lemmas alone.
#![tactic(auto)]
