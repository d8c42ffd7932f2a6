//! What no stored session reaches of types, lanes, kernels and buffers, called at values that were
//! worked out by hand.
#![tactic(auto)]

#[cfg(test)]
mod counted;
#[cfg(test)]
mod kernels;
#[cfg(test)]
mod types;
#[cfg(test)]
mod unifying;
