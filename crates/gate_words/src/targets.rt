//! The targets of a router, as one word spells them: `NAME=ADDRESS`, joined by commas.
ghost use Rattle.std.specs.Prelude.{◌≡◌, IfOk};
ghost use Rattle.gate_fan.specs.declared.fan.Target.{Target};
ghost use Rattle.gate_words.specs.Targets.{Adds, AddsOne, AreFew, are_distinct, has_service, is_name, target_of, targets_of, targets_within};

use crate::limits::MOST_TARGETS;
use gate_base::{OutOfMemory, Text};
use gate_fan::Target;
use peer_addresses::{can_connect_to, place};
use std::alloc::Global;
use std::marker::Model;

/// The targets of a router, in the order of the words: 1 to 16.
#[derive(Drop)]
pub struct Targets {
    list: Vec<Target>,
}

impl Model for Targets {
    ghost use Rattle.std.specs.Prelude.{List};
    ghost use Rattle.gate_fan.specs.declared.fan.Target.{Target};
    ghost use Rattle.gate_words.specs.Targets.{AreFew};

    ghost Value = { List Target };

    ghost view = { λ t. t.list.items };

    ghost invariant = { λ t. AreFew t.list.items };
}

impl Targets {
    /// Its targets.
    pub fn as_slice(&self) -> &[Target]
        ensures value { result.now ≡ self.now }
        ensures few { AreFew result.now }
    {
        self.list.as_slice()
    }

    /// A copy of them.
    ///
    /// `OutOfMemory`: the memory for it was not found.
    pub fn copy(&self, alloc: Global) -> Result<Targets, OutOfMemory>
        ensures { IfOk result (λ targets. targets ≡ self.now) }
    {
        let list = copied(alloc, self.list.as_slice())?;
        Ok(Targets { list })
    }
}

// A copy of some targets.
fn copied(alloc: Global, targets: &[Target]) -> Result<Vec<Target>, OutOfMemory>
    ensures { IfOk result (λ copy. copy.items ≡ targets.now) }
{
    let mut copy = Vec::new(alloc);
    for target in targets {
        copy.push(copied_one(alloc, target)?)?;
    }
    Ok(copy)
}

// A copy of a target.
fn copied_one(alloc: Global, target: &Target) -> Result<Target, OutOfMemory>
    ensures { IfOk result (λ copy. copy ≡ target.now) }
{
    let service = Text::new(alloc, target.service.as_slice())?;
    let address = Text::new(alloc, target.address.as_slice())?;
    Ok(Target { service, address })
}

/// The targets that a word spells, or that it spells none: 1 to 16, each with a name of its own.
///
/// `OutOfMemory`: the memory for a copy was not found.
#[tactic(auto, unfolding(crate::specs::Targets::targets_of))]
pub fn read_targets(alloc: Global, word: &[u8]) -> Result<Option<Targets>, OutOfMemory>
    ensures { IfOk result (λ targets. targets ≡ targets_of word.now) }
{
    let mut list = Vec::new(alloc);
    if !push_targets(alloc, MOST_TARGETS - 1, word, &mut list)? {
        return Ok(None);
    }
    if !are_distinct(list.as_slice()) {
        return Ok(None);
    }
    Ok(Some(Targets { list }))
}

// Adds a target, and at most so many more behind commas. False: the word isn't so.
fn push_targets(
    alloc: Global,
    more: usize,
    word: &[u8],
    targets: &mut Vec<Target>,
) -> Result<bool, OutOfMemory>
    ensures { IfOk result (λ done. Adds (targets_within more word.now) targets.old.items targets.new.items done) }
{
    if more == 0 {
        return push_target(alloc, word, targets);
    }
    let at = place(b',', word);
    if at >= word.len() {
        return push_target(alloc, word, targets);
    }
    if !push_target(alloc, &word[..at], targets)? {
        return Ok(false);
    }
    push_targets(alloc, more - 1, &word[at + 1..], targets)
}

// Adds the target that a word spells. False: it spells none.
fn push_target(alloc: Global, word: &[u8], targets: &mut Vec<Target>) -> Result<bool, OutOfMemory>
    ensures { IfOk result (λ done. AddsOne (target_of word.now) targets.old.items targets.new.items done) }
{
    let at = place(b'=', word);
    if at >= word.len() {
        return Ok(false);
    }
    let (name, address) = (&word[..at], &word[at + 1..]);
    if !is_name(name) || !can_connect_to(address) {
        return Ok(false);
    }
    targets.push(Target {
        service: Text::new(alloc, name)?,
        address: Text::new(alloc, address)?,
    })?;
    Ok(true)
}

// Whether a word is a service's name: it isn't empty, and has neither a colon nor a comma.
fn is_name(word: &[u8]) -> bool
    ensures { result ≡ is_name word.now }
{
    !word.is_empty() && place(b':', word) >= word.len() && place(b',', word) >= word.len()
}

// Whether each target has a name of its own.
fn are_distinct(targets: &[Target]) -> bool
    ensures { result ≡ are_distinct targets.now }
{
    match targets.split_first() {
        Some((first, rest)) => {
            !has_service(first.service.as_slice(), rest) && are_distinct(rest)
        }
        None => true,
    }
}

// Whether one of the targets has this name.
fn has_service(name: &[u8], targets: &[Target]) -> bool
    ensures { result ≡ has_service name.now targets.now }
{
    match targets.split_first() {
        Some((first, rest)) => name == first.service.as_slice() || has_service(name, rest),
        None => false,
    }
}
