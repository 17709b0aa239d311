//! Tests that cross crates: whole commands over files, a source, sinks, a hub and a fan in memory.
#![tactic(auto)]

#[cfg(test)]
mod crew;
#[cfg(test)]
mod failing;
#[cfg(test)]
mod interrupted;
#[cfg(test)]
mod loopback;
#[cfg(test)]
mod outside;
#[cfg(test)]
mod routing;
#[cfg(test)]
mod script;
#[cfg(test)]
mod serving;
#[cfg(test)]
mod sessions;
#[cfg(test)]
mod tests;
