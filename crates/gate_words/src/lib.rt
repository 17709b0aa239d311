//! The words of a command: what they name, by a table.
//!
//! A command is its name, its positional words, and then its options in any order, each at most once and each as the two
//! words `--name` and its value. Whatever else stands there is no command.
#![tactic(auto)]

mod command;
mod laws;
mod limits;
mod lines;
mod options;
mod peers;
mod routing;
mod serving;
mod shares;
mod targets;

pub use command::{Command, Conforming, Conversion, Drilling, Showing, read_command};
pub use laws::the_parts_make_all_sessions;
pub use limits::{
    GREATEST_LIMIT, LEAST_LIMIT, MOST_CALLS, MOST_MESSAGES, MOST_SESSIONS, MOST_THREADS,
};
pub use options::Declared;
pub use peers::{Front, Sides};
pub use routing::Routing;
pub use serving::Serving;
pub use targets::Targets;
