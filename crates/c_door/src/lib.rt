//! The library for C: the calls of `pcre2_api` as exports of a static library, over which `c/` builds
//! `libpcre2-8.so.0`.
#![tactic(auto)]

mod around;
mod asked;
mod engine;
mod exports;
mod handle;
mod limits;
mod parts;
mod runs;
mod texts;
mod told;

pub use asked::{Asked, MatchAsked, SubstAsked};
pub use engine::Engine;
pub use handle::Handle;
pub use runs::Run;
pub use told::{Answer, EndsAnswer, Fault, Hit, Named, Pair, SubstAnswer, Told};
