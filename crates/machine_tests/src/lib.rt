//! Tables of what the machine answers at one place, and of the stack of records that it works on.
#![tactic(auto)]

#[cfg(test)]
mod calls;
#[cfg(test)]
mod partial;
#[cfg(test)]
mod places;
#[cfg(test)]
mod rows;
#[cfg(test)]
mod store;
#[cfg(test)]
mod trees;
#[cfg(test)]
mod verbs;
