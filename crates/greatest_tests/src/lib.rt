//! Each thing that takes memory, once at the greatest size that it allows: no clause says when memory is enough, so a body
//! that gives up early is seen here alone.
#![tactic(auto)]

#[cfg(test)]
mod declarations;
#[cfg(test)]
mod sessions;
