//! Tables of words, targets, inputs, scripts and generated lines.
#![tactic(auto)]

#[cfg(test)]
mod blocks;
#[cfg(test)]
mod generated;
#[cfg(test)]
mod held;
#[cfg(test)]
mod inputs;
#[cfg(test)]
mod long_words;
#[cfg(test)]
mod scripts;
#[cfg(test)]
mod targets;
#[cfg(test)]
mod waiting;
#[cfg(test)]
mod words;
#[cfg(test)]
mod writing;
