//! Tests of runs that no stored session reaches: sources and sinks that fail or come in pieces, the
//! limits, and words.
#![tactic(auto)]

#[cfg(test)]
mod hostile;
#[cfg(test)]
mod runs;
