//! Tables of bytes, characters, streams and lines.
#![tactic(auto)]

#[cfg(test)]
mod characters;
#[cfg(test)]
mod lanes;
#[cfg(test)]
mod lines;
#[cfg(test)]
mod streams;
#[cfg(test)]
mod unicode;
