//! A law of the parts of a server's threads. It is the contract of a function that does nothing.
ghost use Rattle.std.specs.Prelude.{◌≡◌, ◌<◌, ℕ};
ghost use Rattle.gate_words.specs.Shares.{first_shares};

/// However many threads share the sessions, their parts make all of them.
pub fn the_parts_make_all_sessions()
    ensures { (sessions threads : ℕ) → 0 < threads → first_shares sessions threads threads ≡ sessions }
{}
