//! Reads of the client.
ghost use Rattle.std.specs.Prelude.{◌≡◌, length, true};
ghost use Rattle.gate_base.specs.Causes.{Rose};
ghost use Rattle.gate_hub.specs.Hubs.{Later};
ghost use Rattle.http_front.specs.Fronts.{wanted, is_asking, IsOpenHead};
ghost use Rattle.http_front.specs.Moving.{Goes, Turns, Waits};

use crate::front::Front;
use crate::head::MOST_FIELDS;
use gate_hub::{Hub, LinkGot, Side};
use httparse::spans::HeaderSpan;

/// What came of the reads.
#[derive(Clone, Copy)]
pub(crate) enum Filled {
    /// Nothing more is to be read before something is handed out, or nothing comes.
    Enough,
    NotReady,
    Failed,
}

/// Reads until a request is whole or refused, the client ends, or it isn't ready.
#[tactic(auto, using(crate::proofs::Counted::later_on, crate::proofs::Counted::later_same, crate::proofs::Counted::rose_later))]
pub(crate) fn fill<H: Hub>(
    front: &mut Front,
    inner: &mut H,
    k: u64,
    fields: &mut [HeaderSpan],
) -> Filled
    requires room { length fields.old ≡ MOST_FIELDS }
    requires asking { is_asking front.old.stage ≡ true }
    ensures goes { Goes (H.tells inner.old) (H.tells inner.new) k (Turns front.old front.new) }
    ensures enough { result ≡ Filled.Enough → (wanted front.new ≡ 0) × IsOpenHead front.new.stage front.new.input }
    ensures waits { result ≡ Filled.NotReady → Waits front.new.stage front.new.input }
    ensures asking { is_asking front.new.stage ≡ true }
    ensures kept { H.kept inner.new ≡ H.kept inner.old }
    ensures limit { front.new.limit ≡ front.old.limit }
    ensures later { Later (H.counts inner.old) (H.counts inner.new) }
    ensures cause { result ≡ Filled.Failed → Rose ((H.counts inner.old).link_faults k Side.Client) ((H.counts inner.new).link_faults k Side.Client) }
    ensures wait { result ≡ Filled.NotReady → Rose ((H.counts inner.old).waits k Side.Client) ((H.counts inner.new).waits k Side.Client) }
{
    'reads: loop {
        front.settle(fields);
        let count = front.wanted();
        if count == 0 {
            return Filled::Enough;
        }
        match front.read_more(inner, k, count) {
            LinkGot::Bytes(_) => (),
            LinkGot::NotReady => return Filled::NotReady,
            LinkGot::Failed => return Filled::Failed,
            LinkGot::End => {
                front.end(fields);
                return Filled::Enough;
            }
        }
    }
}
