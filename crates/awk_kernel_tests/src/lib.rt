//! The kernels over vectors beside the plain ones, at each length around the widths of vectors,
//! with one place that is unlike all others at each place in turn, and with none.
#![tactic(auto)]

#[cfg(test)]
mod arithmetic;
#[cfg(test)]
mod choices;
#[cfg(test)]
mod comparisons;
#[cfg(test)]
mod rows;
#[cfg(test)]
mod searches;
#[cfg(test)]
mod totals;
