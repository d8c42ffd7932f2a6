//! Tests of forms and of what is loaded by them, which no session of a program reaches: the texts
//! of
//! forms, an array packed, loaded and packed again, and bytes of both orders loaded.
#![tactic(auto)]

#[cfg(test)]
mod back;
#[cfg(test)]
mod orders;
#[cfg(test)]
mod texts;
