//! One connection of a session: its stream, what is known of its readiness, and its two buffers.
ghost use Rattle.std.specs.Prelude.{◌≡◌, ◌≢◌, ◌⊎◌, true, false, ◌<◌, ◌≤◌, [], ◌++◌, length, take, None, IsSome, IfOk};
ghost use Rattle.gate_hub.specs.Hubs.{GotWithin, TookWithin, LinkReads, LinkWrites};
ghost use Rattle.gate_hub.specs.Meaning.{Link, new_link};
ghost use Rattle.mio_edge.specs.Wire.{Moves, Stays, new_wire};

use crate::Stream;
use crate::buffers::{hand_out, receive_from, send_from, take_in};
use crate::network::Readiness;
use gate_base::OutOfMemory;
use gate_hub::{LinkGot, LinkPut};
use gate_io::Out;
use std::alloc::Global;

// Whether bytes may be read from the stream: none came since a read found the last ones, some may
// have, the peer's end or a failure was reported behind them, the end was read, or the stream failed.
#[derive(Clone, Copy, PartialEq, Eq)]
enum Receiving {
    Idle,
    Ready,
    Closing,
    Ended,
    Lost,
}

impl Receiving {
    ghost use Rattle.mio_edge.specs.Moving.{after_news, begins_receiving};

    // The same once this was reported. A failure shows at the next read.
    fn after(self, news: Readiness) -> Receiving
        ensures { result ≡ after_news news self }
    {
        let is_over = news.is_closing || news.has_failed;
        match self {
            Receiving::Idle | Receiving::Ready if is_over => Receiving::Closing,
            Receiving::Idle if news.is_readable => Receiving::Ready,
            same => same,
        }
    }

    // Whether something may be read by then that couldn't be before.
    fn begins(self, news: Readiness) -> bool
        ensures { result ≡ begins_receiving news self }
    {
        self == Receiving::Idle && (news.is_readable || news.is_closing || news.has_failed)
    }
}

// Whether the stream takes bytes: it is begun at the first write, not so far, it may, its end was
// told to the peer, or the stream failed.
#[derive(Clone, Copy, PartialEq, Eq)]
pub(crate) enum Sending {
    Deferred,
    Blocked,
    Ready,
    Shut,
    Lost,
}

impl Sending {
    ghost use Rattle.mio_edge.specs.Moving.{then_sending, begins_sending};

    // The same once this was reported. A failure shows at the next write.
    fn after(self, news: Readiness) -> Sending
        ensures { result ≡ then_sending news self }
    {
        match self {
            Sending::Blocked if news.is_writable || news.has_failed => Sending::Ready,
            same => same,
        }
    }

    // Whether something may be written by then that couldn't be before.
    fn begins(self, news: Readiness) -> bool
        ensures { result ≡ begins_sending news self }
    {
        self == Sending::Blocked && (news.is_writable || news.has_failed)
    }
}

/// How far the end of a closed port has come: bytes are to be sent still, more than one read of what
/// the peer sent is to be passed over, the peer's end is awaited, or nothing is left to do.
#[derive(Clone, Copy, PartialEq, Eq)]
pub(crate) enum Rest {
    Unsent,
    Unread,
    Awaited,
    Gone,
}

/// A connection with its buffers, of which both have room. Where it never came to be there is no stream.
///
/// Readiness is reported once, at a change. So it is kept here until a read or a write shows that it
/// is over: one that would have to wait, or that moved less than it could. A stream that failed is
/// kept until the session is over, and not used again.
#[derive(Drop)]
pub(crate) struct Port<S> {
    stream: Option<S>,
    receiving: Receiving,
    sending: Sending,
    incoming: Out,
    outgoing: Out,
    ghost room_in: { 0 < incoming.room },
    ghost room_out: { 0 < outgoing.room },
}

impl<S: Stream> Port<S> {
    ghost use Rattle.mio_edge.specs.Closing.{IsSettled, KeepsSent, TellsItsEnd};
    ghost use Rattle.mio_edge.specs.Connecting.{IsConnected, WaitsForWrite};
    ghost use Rattle.mio_edge.specs.Places.{HoldsUnsent};
    ghost use Rattle.mio_edge.specs.Moving.{PortTells, PortHears, IsOver, Finds, Notes, HasSent, after_failure};
    ghost use Rattle.mio_edge.specs.Moving.{IsCalm, IsBegun, IsFull, IsUnsent, CanRead, CanWrite, is_news, noted};

    /// A port without a connection. It takes the memory of both buffers, each of so many bytes, which are some.
    ///
    /// A read is offered all room for what comes in, since one that leaves room has found the last of
    /// what came.
    pub(crate) fn open(alloc: Global, room: usize) -> Result<Port<S>, OutOfMemory>
        requires { 0 < room }
        ensures { IfOk result (λ port. PortTells S.tells port new_link) }
    {
        Ok(Port {
            stream: None,
            receiving: Receiving::Idle,
            sending: Sending::Blocked,
            incoming: Out::open_whole(alloc, room)?,
            outgoing: Out::open(alloc, room)?,
        })
    }

    /// Gives the port a connection, over which nothing went.
    pub(crate) fn attach(&mut self, stream: S, sending: Sending)
        requires { IsBegun sending }
        ensures tells { S.tells stream new_wire → PortTells S.tells self.new new_link }
        ensures connects { IsConnected stream sending self.new }
    {
        self.stream = Some(stream);
        self.receiving = Receiving::Idle;
        self.sending = sending;
        self.incoming.clear();
        self.outgoing.clear();
    }

    /// Has the connection begun at the first write, where there is none. Until then nothing can be read.
    pub(crate) fn defer(&mut self)
        ensures keeps { Stays (PortTells S.tells self.old) (PortTells S.tells self.new) }
        ensures calm { IsCalm self.old self.new }
        ensures deferred { WaitsForWrite self.new }
    {
        if self.stream.is_none() {
            self.sending = Sending::Deferred;
        }
    }

    /// Whether the connection is to be begun at the first write.
    pub(crate) fn is_deferred(&self) -> bool
        ensures deferred { result ≡ true → self.now.sending ≡ Sending.Deferred }
        ensures begun { result ≡ false → self.now.sending ≢ Sending.Deferred }
    {
        self.sending == Sending::Deferred
    }

    /// Lets the connection be no more begun.
    pub(crate) fn give_up(&mut self)
        ensures keeps { Stays (PortTells S.tells self.old) (PortTells S.tells self.new) }
        ensures calm { IsCalm self.old self.new }
        ensures given_up { self.new.sending ≢ Sending.Deferred }
    {
        if self.is_deferred() {
            self.sending = Sending::Blocked;
        }
    }

    /// Lets the connection go, with all that the buffers hold.
    pub(crate) fn detach(&mut self)
        ensures { PortTells S.tells self.new new_link }
    {
        self.stream = None;
        self.sending = Sending::Blocked;
        self.incoming.clear();
        self.outgoing.clear();
    }

    /// Takes note of what was reported, and says whether it is news to a caller that waits.
    pub(crate) fn report(&mut self, news: Readiness) -> bool
        ensures notes { self.new ≡ noted news self.old }
        ensures hears { (link : Link) → PortTells S.tells self.old link → PortHears S.tells news self.new link }
        ensures news { result ≡ is_news news self.old }
    {
        let is_news = news.has_failed || self.receiving.begins(news) || self.sending.begins(news);
        self.receiving = self.receiving.after(news);
        self.sending = self.sending.after(news);
        is_news
    }

    /// Whether bytes that were written are to be sent still.
    pub(crate) fn has_unsent(&self) -> bool
        ensures waits { result ≡ false → IsUnsent self.now → ⊥ }
        ensures settled { result ≡ false → IsSettled self.now }
        ensures unsent { result ≡ true → HoldsUnsent self.now }
        ensures nothing { result ≡ false → HoldsUnsent self.now → ⊥ }
    {
        self.sending != Sending::Lost && !self.outgoing.bytes().is_empty()
    }

    /// Whether the connection failed or never came to be.
    pub(crate) fn is_gone(&self) -> bool
        ensures here { result ≡ false → IsSome self.now.stream }
        ensures gone { result ≡ true → (self.now.stream ≡ None) ⊎ (self.now.sending ≡ Sending.Lost) }
    {
        self.sending == Sending::Lost || self.stream.is_none()
    }

    /// Whether a read waits for the next turn of a session that may move so many bytes still. Once the peer's end was
    /// read it is answered without waiting.
    pub(crate) fn waits_for_turn(&self, allowance: usize) -> bool
        ensures spent { result ≡ true → allowance ≡ 0 }
        ensures over { result ≡ true → IsOver self.now → ⊥ }
        ensures ended { result ≡ false → allowance ≡ 0 → self.now.receiving ≡ Receiving.Ended }
    {
        allowance == 0 && self.receiving != Receiving::Ended
    }

    /// Hands out what was received. Where nothing is held, all that came and has room is read.
    #[inline(always)]
    pub(crate) fn read(&mut self, into: &mut [u8]) -> LinkGot
        requires { 0 < length into.old }
        ensures within { GotWithin into.new result }
        ensures leads { Moves (PortTells S.tells self.old) (PortTells S.tells self.new) (LinkReads into.new result) }
        ensures waits { result ≡ LinkGot.NotReady → CanRead self.new → ⊥ }
        ensures calm { (CanWrite self.new → CanWrite self.old) × (IsUnsent self.new → IsUnsent self.old) }
    {
        if !self.incoming.bytes().is_empty() {
            return LinkGot::Bytes(hand_out(&mut self.incoming, into));
        }
        match self.receive() {
            LinkGot::Bytes(_) => LinkGot::Bytes(hand_out(&mut self.incoming, into)),
            LinkGot::Failed if self.is_deferred() => LinkGot::NotReady,
            got => got,
        }
    }

    /// Takes what has room in the buffer, which is sent first where it is full.
    #[inline(always)]
    pub(crate) fn write(&mut self, from: &[u8]) -> LinkPut
        requires { 0 < length from.now }
        ensures within { TookWithin from.now result }
        ensures leads { Moves (PortTells S.tells self.old) (PortTells S.tells self.new) (LinkWrites from.now result) }
        ensures waits { result ≡ LinkPut.NotReady → CanWrite self.new → ⊥ }
        ensures calm { CanRead self.new → CanRead self.old }
    {
        self.make_room();
        if self.is_gone() {
            return LinkPut::Failed;
        }
        take_in(&mut self.outgoing, from)
    }

    // Sends what was written where no room is left for more.
    fn make_room(&mut self)
        ensures keeps { Stays (PortTells S.tells self.old) (PortTells S.tells self.new) }
        ensures full { IsFull self.new → CanWrite self.new → ⊥ }
        ensures calm { IsCalm self.old self.new }
    {
        if self.outgoing.spare() == 0 {
            self.send();
        }
    }

    /// Sends what was written, where there is some, and says whether the connection failed in that.
    pub(crate) fn send_unsent(&mut self) -> bool
        ensures keeps { Stays (PortTells S.tells self.old) (PortTells S.tells self.new) }
        ensures sent { IsUnsent self.new → ⊥ }
        ensures still { (IsUnsent self.old → ⊥) → self.new ≡ self.old }
        ensures calm { IsCalm self.old self.new }
    {
        if !self.has_unsent() {
            return false;
        }
        self.send();
        self.is_gone()
    }

    /// Sends what was written, as far as the stream takes it now.
    #[inline(never)]
    pub(crate) fn send(&mut self)
        ensures keeps { Stays (PortTells S.tells self.old) (PortTells S.tells self.new) }
        ensures sent { HasSent self.new }
        ensures still { (IsUnsent self.old → ⊥) → self.new ≡ self.old }
        ensures calm { IsCalm self.old self.new }
    {
        if self.sending != Sending::Ready || self.outgoing.bytes().is_empty() {
            return;
        }
        let Some(stream) = &mut self.stream else {
            return;
        };
        match send_from(stream, &mut self.outgoing) {
            LinkPut::Failed => self.fail(),
            LinkPut::NotReady => self.sending = Sending::Blocked,
            LinkPut::Took(_) if !self.outgoing.bytes().is_empty() => self.sending =
                Sending::Blocked,
            LinkPut::Took(_) => (),
        }
    }

    /// Goes on with the end of the connection: what was written is sent, then the peer is told that
    /// no more will come, and what it sends is passed over until it has ended too.
    ///
    /// A connection that is let go while bytes stand unread is reset by the system, and its peer may
    /// lose what was sent to it.
    pub(crate) fn wind_up(&mut self) -> Rest
        ensures sends { Moves (PortTells S.tells self.old) (PortTells S.tells self.new) KeepsSent }
        ensures gone { result ≡ Rest.Gone → IsSettled self.new }
        ensures sent { IsUnsent self.new → ⊥ }
        ensures told { TellsItsEnd self.new }
    {
        self.send();
        let got = self.pass_over();
        if self.is_gone() {
            return Rest::Gone;
        }
        let is_sent = self.finish();
        self.rest_after(got, is_sent)
    }

    // Passes over what came from the peer, and reads once more.
    fn pass_over(&mut self) -> LinkGot
        ensures moves { Moves (PortTells S.tells self.old) (PortTells S.tells self.new) KeepsSent }
        ensures calm { IsUnsent self.new → IsUnsent self.old }
        ensures finds { Finds result self.new }
    {
        self.incoming.clear();
        self.receive()
    }

    // Tells the peer that no more will come, where everything is sent. It says whether that is so.
    fn finish(&mut self) -> bool
        ensures keeps { Stays (PortTells S.tells self.old) (PortTells S.tells self.new) }
        ensures sent { result ≡ true → self.new.outgoing.bytes ≡ [] }
        ensures calm { result ≡ false → self.new ≡ self.old }
        ensures told { result ≡ true → self.new.sending ≡ Sending.Shut }
        ensures holds { result ≡ false → self.new.outgoing.bytes ≢ [] }
    {
        if !self.outgoing.bytes().is_empty() {
            return false;
        }
        self.shut();
        true
    }

    // How far the end has come once a read answered this.
    fn rest_after(&self, got: LinkGot, is_sent: bool) -> Rest
        ensures sent { result ≡ Rest.Gone → is_sent ≡ true }
        ensures ended { got ≡ LinkGot.End → is_sent ≡ true → result ≡ Rest.Gone }
        ensures unsent { is_sent ≡ true → result ≢ Rest.Unsent }
    {
        match got {
            LinkGot::Bytes(_) if self.receiving != Receiving::Idle => Rest::Unread,
            LinkGot::End if is_sent => Rest::Gone,
            _ if is_sent => Rest::Awaited,
            _ => Rest::Unsent,
        }
    }

    // Tells the peer that no more will come.
    fn shut(&mut self)
        ensures keeps { Stays (PortTells S.tells self.old) (PortTells S.tells self.new) }
        ensures outgoing { self.new.outgoing ≡ self.old.outgoing }
        ensures told { self.new.sending ≡ Sending.Shut }
    {
        if self.sending == Sending::Shut {
            return;
        }
        self.sending = Sending::Shut;
        if let Some(stream) = &mut self.stream {
            stream.shut();
        }
    }

    // Reads once from the stream, where something may have come, into the buffer, which is empty. Most reads of a turn ask a
    // stream of which nothing was reported since, so these are told apart in line.
    #[inline(always)]
    fn receive(&mut self) -> LinkGot
        requires empty { self.old.incoming.bytes ≡ [] }
        ensures finds { Finds result self.new }
        ensures keeps { Stays (PortTells S.tells self.old) (PortTells S.tells self.new) }
        ensures calm { (CanWrite self.new → CanWrite self.old) × (IsUnsent self.new → IsUnsent self.old) }
    {
        if self.stream.is_some() && self.receiving == Receiving::Idle {
            return LinkGot::NotReady;
        }
        self.receive_more()
    }

    // The same for a stream that may be ready.
    #[inline(never)]
    fn receive_more(&mut self) -> LinkGot
        requires empty { self.old.incoming.bytes ≡ [] }
        ensures finds { Finds result self.new }
        ensures keeps { Stays (PortTells S.tells self.old) (PortTells S.tells self.new) }
        ensures calm { (CanWrite self.new → CanWrite self.old) × (IsUnsent self.new → IsUnsent self.old) }
    {
        let Some(stream) = &mut self.stream else {
            return LinkGot::Failed;
        };
        match self.receiving {
            Receiving::Idle => return LinkGot::NotReady,
            Receiving::Ended => return LinkGot::End,
            Receiving::Lost => return LinkGot::Failed,
            Receiving::Ready | Receiving::Closing => (),
        }
        let got = receive_from(stream, &mut self.incoming);
        self.note(got);
        got
    }

    // Takes note of what a read found. One that left room found the last of what had come; what comes
    // later is reported, but an end that was reported already is not reported again.
    fn note(&mut self, got: LinkGot)
        ensures { Notes got self.old self.new }
    {
        match got {
            LinkGot::Bytes(_) => {
                if self.receiving == Receiving::Ready && self.incoming.spare() > 0 {
                    self.receiving = Receiving::Idle;
                }
            }
            LinkGot::NotReady => self.receiving = Receiving::Idle,
            LinkGot::End => self.receiving = Receiving::Ended,
            LinkGot::Failed => self.fail(),
        }
    }

    // The stream failed.
    fn fail(&mut self)
        ensures { self.new ≡ record self.old { receiving = after_failure self.old.receiving; sending = Sending.Lost } }
    {
        self.sending = Sending::Lost;
        if self.receiving != Receiving::Ended {
            self.receiving = Receiving::Lost;
        }
    }
}
