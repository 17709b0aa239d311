//! The networks of several servers at an address.
ghost use Rattle.std.specs.Prelude.{◌≡◌, ◌+◌, true, length, IfOk, IfSome, OnOk};

use crate::bell::Bell;
use crate::crew::{Crew, Host, Seat};
use crate::crew_network::CrewNetwork;
use crate::ring::{Outbox, open_ring};
use gate_base::{OutOfMemory, Text};
use mio_edge::{Polling, look_up};
use peer_addresses::{Address, name_in, read_address};
use std::alloc::Global;
use std::net::Net;
use std::sync::Arc;

/// What one of the servers at an address works with.
#[derive(Drop)]
pub struct Member<'n, N> {
    /// The network under its sockets.
    pub network: CrewNetwork<'n, N>,
    /// How it tells the others that it has ended before its time.
    pub exit: Bell,
}

/// The networks of so many servers at one address, for the threads in which they run. The last one is that of the server that
/// accepts. The targets that are names are looked up here, each once, in their order, up to the first that isn't found.
///
/// None: the system refuses one of them a poll. `OutOfMemory`: the memory for it was not found.
pub fn open_crew<'n, N: Net>(
    net: &'n N,
    alloc: Global,
    threads: usize,
    targets: &[Text],
) -> Result<Option<Vec<Member<'n, N>>>, OutOfMemory>
    ensures { IfOk result (λ crew. IfSome crew (λ members. length members.items ≡ threads)) }
{
    let mut hosts = Vec::with_capacity(alloc, targets.len())?;
    find_hosts(net, alloc, targets, &mut hosts)?;
    let mut polls = Vec::with_capacity(alloc, threads)?;
    let mut seats = Vec::with_capacity(alloc, threads)?;
    if !open_polls(net, alloc, threads, &mut polls, &mut seats)? {
        return Ok(None);
    }
    let crew = Arc::new(alloc, Crew::new(seats, hosts))?;
    let mut members = Vec::with_capacity(alloc, threads)?;
    fill_seats(net, alloc, &crew, polls, &mut members)?;
    link(alloc, &mut members)?;
    Ok(Some(members))
}

// Looks up the targets that are names.
fn find_hosts<N: Net>(
    net: &N,
    alloc: Global,
    targets: &[Text],
    hosts: &mut Vec<Host>,
) -> Result<(), OutOfMemory> {
    for target in targets {
        let word = target.as_slice();
        if let Some(Address::Name { port }) = read_address(word) {
            let Some(address) = look_up(net, name_in(word), port) else {
                return Ok(());
            };
            hosts.push(Host {
                name: Text::new(alloc, name_in(word))?,
                port,
                address,
            })?;
        }
    }
    Ok(())
}

// Opens the poll of each server, and its seat. It says whether the system refused none.
fn open_polls<N: Net>(
    net: &N,
    alloc: Global,
    count: usize,
    polls: &mut Vec<Polling>,
    seats: &mut Vec<Seat>,
) -> Result<bool, OutOfMemory>
    ensures { IfOk result (λ all. all ≡ true → length polls.new.items ≡ length polls.old.items + count) }
{
    for _ in 0..count {
        let Some(polling) = Polling::open(net, alloc)? else {
            return Ok(false);
        };
        let Some(waker) = polling.waker() else {
            return Ok(false);
        };
        polls.push(polling)?;
        seats.push(Seat::new(waker))?;
    }
    Ok(true)
}

// Makes the server of each poll.
fn fill_seats<'n, N: Net>(
    net: &'n N,
    alloc: Global,
    crew: &Arc<Crew, Global>,
    polls: Vec<Polling>,
    members: &mut Vec<Member<'n, N>>,
) -> Result<(), OutOfMemory>
    ensures { OnOk result (length members.new.items ≡ length members.old.items + length polls.items) }
{
    for polling in polls {
        let network = CrewNetwork::new(net, alloc, Arc::try_clone(crew)?, members.len(), polling);
        let exit = Bell::new(Arc::try_clone(crew)?);
        members.push(Member { network, exit })?;
    }
    Ok(())
}

// Opens the ways from the last one to each other.
fn link<N: Net>(alloc: Global, members: &mut [Member<'_, N>]) -> Result<(), OutOfMemory> {
    let Some((acceptor, others)) = members.split_last_mut() else {
        return Ok(());
    };
    let mut outboxes = Vec::with_capacity(alloc, others.len())?;
    for member in others.iter_mut() {
        let (outbox, inbox) = open_ring(alloc)?;
        member.network.receive_by(inbox);
        outboxes.push(outbox)?;
    }
    acceptor.network.hand_by(outboxes);
    Ok(())
}
