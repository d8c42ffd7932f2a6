//! What the laws of operations stand on: chains of lists and options around leaves, places of
//! items, and picks row by row. Definitions and lemmas alone.
#![tactic(auto)]
