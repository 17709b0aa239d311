//! Laws of the HTTP front: what a client was given and sent is what its POSTs call for.
//!
//! Each law is the contract of a function that does nothing. The code rests on none of them.
#![tactic(auto)]

ghost use Rattle.std.specs.Prelude.{◌≡◌, Bool, false, List, Option};
ghost use Rattle.gate_hub.specs.Meaning.{Meaning};
ghost use Rattle.http_front.specs.Posts.{Post, Tail, Posts};
ghost use Rattle.http_front.specs.Fronts.{Reading, Front, Carried, Fits};
ghost use Rattle.http_front.specs.Slots.{Open};
ghost use Rattle.http_front.specs.Telling.{Tells};
ghost use Rattle.http_front.specs.declared.stage.Stage.TheVariants.{Over};
ghost use Rattle.http_laws.specs.Answered.{IsAnsweredInOrder, OwesNothing, AreAllAnswered};
ghost use Rattle.http_laws.specs.Given.{EachCut, HasAll, HasAllSoFar, IsQuiet, HaveAllAtEnd};
ghost use Rattle.http_laws.specs.Served.{IsServed, AreClientsServed};

/// However what was received is cut into POSTs, the reads gave a front of their frames, at most one body ahead of the responses sent.
/// Two cuts may tell the tail in two ways; the reads gave one of them.
pub fn reads_are_a_front_of_the_frames()
    ensures { (r : Reading) (f : Front) (c : Carried) (posts : List Post) (tail : Tail) → Fits r f c → Posts r.limit c.received posts tail → IsServed r c posts }
{}

/// What was sent is the responses to the first POSTs, in order, and behind them at most the front of the response to the next one.
pub fn responses_come_in_order()
    ensures { (r : Reading) (f : Front) (c : Carried) → Fits r f c → EachCut r.limit c.received (IsAnsweredInOrder r c) }
{}

/// Where no answer is awaited and no response waits, each body that was given whole has its response, but one that ends the session.
pub fn every_answer_was_sent()
    ensures { (r : Reading) (f : Front) (c : Carried) → Fits r f c → OwesNothing f → EachCut r.limit c.received (AreAllAnswered r c) }
{}

/// Where the front is over, the reads gave all frames, and all that stands for the tail.
pub fn the_end_comes_behind_all()
    ensures { (r : Reading) (f : Front) (c : Carried) → Fits r f c → f.stage ≡ Over → EachCut r.limit c.received (HasAll r.limit c) }
{}

/// Where requests are read and no whole one is held, of a client that has not ended, the reads gave all but perhaps the mark, and that is given at
/// the latest when as many bytes of a head came as it may have.
pub fn a_quiet_client_has_all()
    ensures { (r : Reading) (f : Front) (c : Carried) → Fits r f c → IsQuiet f → c.ended ≡ false → EachCut r.limit c.received (HasAllSoFar r.limit c) }
{}

/// A client that an HTTP hub told the end was given all.
pub fn told_ends_come_behind_all()
    ensures { (r : Reading) (slots : Option Open) (stopped : Bool) (inner outer : Meaning) → Tells r slots stopped inner outer → HaveAllAtEnd r inner outer }
{}

/// Over each session that the hub below tells to be announced, an HTTP hub tells of a client that is served so.
pub fn told_clients_are_served()
    ensures { (r : Reading) (slots : Option Open) (stopped : Bool) (inner outer : Meaning) → Tells r slots stopped inner outer → AreClientsServed r inner outer }
{}
