//! Tables of what searches find, with their least limits.
#![tactic(auto)]

#[cfg(test)]
mod forms;
#[cfg(test)]
mod limits;
#[cfg(test)]
mod pairs;
#[cfg(test)]
mod partial;
#[cfg(test)]
mod searching;
#[cfg(test)]
mod shapes;
#[cfg(test)]
mod shown;
#[cfg(test)]
mod texts;
