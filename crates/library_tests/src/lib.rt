//! Tables of what the library answers.
#![tactic(auto)]

#[cfg(test)]
mod dfa;
#[cfg(test)]
mod library;
#[cfg(test)]
mod places;
#[cfg(test)]
mod resets;
#[cfg(test)]
mod rows;
#[cfg(test)]
mod sweeps;
#[cfg(test)]
mod utf;
