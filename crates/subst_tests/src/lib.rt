//! Tables of what the library answers: substitutions, marks, callouts and great patterns.
#![tactic(auto)]

#[cfg(test)]
mod callouts;
#[cfg(test)]
mod many;
#[cfg(test)]
mod marks;
#[cfg(test)]
mod reserved;
#[cfg(test)]
mod substitutions;
