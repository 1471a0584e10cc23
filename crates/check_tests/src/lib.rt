//! Tables of what is known of a pattern before a search, by trees made by hand.
#![tactic(auto)]

#[cfg(test)]
mod build;
#[cfg(test)]
mod needs;
#[cfg(test)]
mod rows;
