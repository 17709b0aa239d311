//! Routed sessions over a fan in memory.
#![tactic(auto)]

#[cfg(test)]
mod serving;
