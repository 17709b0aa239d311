//! What becomes of a frame that is translated: the verdict, its cause with its text and its place, and how the struct of a body is found.
//!
//! The definitions here say what a translation gives, for any reader and any writer; who translates stands above.
#![tactic(auto)]

mod route;
mod texts;
mod verdict;

pub use route::{Route, Told, body_struct, told_of};
pub use texts::{bar_text, reason_text};
pub use verdict::{Cause, HeadInfo, Verdict};
