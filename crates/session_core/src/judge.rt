//! What a session asks of those who read its frames.
ghost use Rattle.std.specs.Prelude.{◌≡◌, ℕ, ◌+◌, ◌≤◌, ◌++◌, length, true, false, None, IfSome};
ghost use Rattle.protocol_traits.specs.Room.{room_for};
ghost use Rattle.session_core.specs.Quick.{seen_as};
ghost use Rattle.session_core.specs.Rules.{Rules};

use crate::outcome::Halt;
use gate_io::Out;
use translate_verdicts::Cause;
use type_tables::StructId;

/// What an open call keeps of its method.
#[derive(Clone, Copy)]
pub struct Call {
    /// The struct of its reply, where the method is known.
    pub result: Option<StructId>,
}

/// The verdict on a frame of the client.
#[derive(Clone, Copy)]
pub enum ClientJudged {
    /// Its header can't be read, or it is no call.
    Halts(Halt),
    /// It is passed, and waits for a reply.
    Opens(Call),
    /// It is passed, and nothing comes back.
    Goes,
    /// It is refused, and waits for an answer.
    Refused(Cause),
    /// It is refused, and nothing comes back.
    Dropped(Cause),
}

/// The verdict on a frame of the upstream.
#[derive(Clone, Copy)]
pub enum UpstreamJudged {
    /// Its header can't be read, or it is a call.
    Halts(Halt),
    /// It closes its call. What goes to the client is the reply; with a cause it tells that the reply is refused.
    Answers(Option<Cause>),
}

/// What a quick look tells of a frame of the client.
#[derive(Clone, Copy)]
pub enum CallLook {
    /// Nothing: the frame is to be judged.
    Nothing,
    /// It is passed, and waits for a reply.
    Opens(Call),
    /// It is passed, and nothing comes back.
    Goes,
}

/// Whoever reads the frames of a session and writes what goes on. It takes no memory.
pub trait Judge: Sized + Drop {
    /// How it judges.
    ghost rules: { Self → Rules };

    /// The longest frame that it has room for.
    ghost longest: { Self → ℕ };

    /// Takes a quick look at a frame of the client, and appends what goes to the upstream where it tells that the frame is
    /// passed. Most frames go no further: what a look tells fits registers, and a verdict doesn't.
    fn pass_call(&mut self, frame: &[u8], out: &mut Out) -> CallLook
        requires fits { length frame.now ≤ longest self.old }
        requires room { length out.old.bytes + room_for (length frame.now) ≤ out.old.room }
        ensures same { self.new ≡ self.old }
        ensures verdict { IfSome (seen_as result) (λ judged. judged ≡ (rules self.old).judged frame.now) }
        ensures out { IfSome (seen_as result) (λ judged. out.new ≡ record { bytes = out.old.bytes ++ (rules self.old).output frame.now; room = out.old.room }) }
        ensures left { result ≡ CallLook.Nothing → out.new ≡ out.old }
        ensures within { length out.new.bytes ≤ out.new.room };

    /// Judges a frame of the client, and appends what goes to the upstream where it is passed.
    fn client(&mut self, frame: &[u8], out: &mut Out) -> ClientJudged
        requires fits { length frame.now ≤ longest self.old }
        requires room { length out.old.bytes + room_for (length frame.now) ≤ out.old.room }
        ensures same { self.new ≡ self.old }
        ensures verdict { result ≡ (rules self.old).judged frame.now }
        ensures out { out.new ≡ record { bytes = out.old.bytes ++ (rules self.old).output frame.now; room = out.old.room } }
        ensures within { length out.new.bytes ≤ out.new.room };

    /// Appends the answer to a refused call.
    fn answer(&mut self, frame: &[u8], cause: Cause, out: &mut Out)
        requires fits { length frame.now ≤ longest self.old }
        requires refused { (rules self.old).judged frame.now ≡ ClientJudged.Refused cause }
        requires room { length out.old.bytes + room_for (length frame.now) ≤ out.old.room }
        ensures same { self.new ≡ self.old }
        ensures out { out.new ≡ record { bytes = out.old.bytes ++ (rules self.old).answer frame.now; room = out.old.room } }
        ensures within { length out.new.bytes ≤ out.new.room };

    /// Whether a quick look tells that a frame of the upstream passes as the reply to a call: then it appends what goes to
    /// the client. False says nothing of the frame.
    fn pass_reply(&mut self, call: Call, frame: &[u8], out: &mut Out) -> bool
        requires fits { length frame.now ≤ longest self.old }
        requires room { length out.old.bytes + room_for (length frame.now) ≤ out.old.room }
        ensures same { self.new ≡ self.old }
        ensures verdict { result ≡ true → (rules self.old).replied call frame.now ≡ UpstreamJudged.Answers None }
        ensures out { result ≡ true → out.new ≡ record { bytes = out.old.bytes ++ (rules self.old).reply call frame.now; room = out.old.room } }
        ensures left { result ≡ false → out.new ≡ out.old }
        ensures within { length out.new.bytes ≤ out.new.room };

    /// Judges a frame of the upstream for a call, and appends what goes to the client.
    fn upstream(&mut self, call: Call, frame: &[u8], out: &mut Out) -> UpstreamJudged
        requires fits { length frame.now ≤ longest self.old }
        requires room { length out.old.bytes + room_for (length frame.now) ≤ out.old.room }
        ensures same { self.new ≡ self.old }
        ensures verdict { result ≡ (rules self.old).replied call frame.now }
        ensures out { out.new ≡ record { bytes = out.old.bytes ++ (rules self.old).reply call frame.now; room = out.old.room } }
        ensures within { length out.new.bytes ≤ out.new.room };
}
