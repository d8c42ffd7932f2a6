//! Tests of the edge, of what no session of a program reaches: pieces, calls that fail, a full sink
//! and limits.
#![tactic(auto)]

#[cfg(test)]
mod input;
#[cfg(test)]
mod output;
#[cfg(test)]
mod standard;
