//! The part of a server's sessions that one of its threads serves.
ghost use Rattle.std.specs.Prelude.{◌≡◌, ◌<◌, ◌≤◌};
ghost use Rattle.gate_words.specs.Shares.{share};

use crate::limits::MOST_SESSIONS;

/// How many of the sessions the thread at this place has, counted from 0, where so many threads share them.
pub fn share(sessions: u32, threads: usize, at: usize) -> u32
    requires some { 0 < threads }
    requires few { sessions ≤ MOST_SESSIONS }
    ensures { result ≡ share sessions threads at }
{
    let all = sessions as usize;
    if at < all % threads {
        (all / threads + 1) as u32
    } else {
        (all / threads) as u32
    }
}
