//! The IDL of a command: its files loaded and its constants checked, or the first refusal with the line that tells it.
#![tactic(auto)]

mod laws;
mod opening;
mod refusal;

pub use laws::files_give_one_answer;
pub use opening::{Stop, check_consts, open};
pub use refusal::{ErrorCode, Refusal};
