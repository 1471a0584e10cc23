//! Tables of tokens, of their parts, of their faults and of replacements.
#![tactic(auto)]

#[cfg(test)]
mod faults;
#[cfg(test)]
mod parts;
#[cfg(test)]
mod replacements;
#[cfg(test)]
mod tokens;
