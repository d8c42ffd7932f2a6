//! What all other crates stand on: lemmas of lists, truth values, numbers in a row and sums, which
//! know no type of this library. Lemmas alone; what std has is not said again here.
#![tactic(auto)]
