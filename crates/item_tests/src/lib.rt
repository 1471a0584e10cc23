//! Tables of trees, sets of characters, and items at one place.
#![tactic(auto)]

#[cfg(test)]
mod flows;
#[cfg(test)]
mod items;
#[cfg(test)]
mod letters;
#[cfg(test)]
mod sets;
#[cfg(test)]
mod texts;
#[cfg(test)]
mod trees;
