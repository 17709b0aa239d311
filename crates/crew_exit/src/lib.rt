//! How a server that is one of several at an address tells the others that it has ended.
#![tactic(auto)]

ghost use Rattle.std.specs.Prelude.{◌≡◌, Bool, true};

/// How a server tells the others at its address that it has ended before its time.
pub trait Exit {
    /// It has told so.
    ghost has_left: { Self → Bool };

    /// Has the others end too: the next event of each is `Stopped`.
    fn leave(&mut self)
        ensures { has_left self.new ≡ true };
}
