//! The events of a body, from the reader to the writer.
ghost use Rattle.std.specs.Prelude.{◌≡◌, ◌+◌, ◌≤◌, ◌<◌, length, false, Some, None, if◌then◌else◌};
ghost use Rattle.thrift_value.specs.Items.{item_of};
ghost use Rattle.protocol_traits.specs.declared.nest.TheConstants.{DEPTH};
ghost use Rattle.protocol_traits.specs.Follow.{depth_after};
ghost use Rattle.protocol_traits.specs.Room.{weight, IsSized};
ghost use Rattle.translate_verdicts.specs.Body.{EndsBody, first_cause, goes_out, tried, with_item};

use gate_io::Out;
use protocol_traits::{Bar, Fault, Mark, WireRead, WireWrite};
use thrift_value::Event;
use translate_verdicts::Cause;
use type_walk::Walking;

/// Takes the body from the reader to the writer, and answers the first bar.
///
/// Behind a bar it reads on, for a fault that stands later goes before the bar.
pub fn body<'f, R: WireRead<'f>, W: WireWrite, K: Walking>(
    reader: &mut R,
    walk: &mut K,
    writer: &mut W,
    barred: Option<Cause>,
    out: &mut Out,
) -> Result<Option<Cause>, Fault>
    requires begins { R.depth reader.old ≡ 1 }
    requires walks { length (K.at walk.old).levels ≡ 1 }
    requires opens { W.depth writer.old ≡ 1 }
    requires room { length out.old.bytes + R.ahead reader.old ≤ out.old.room }
    ensures exact { EndsBody R.ReadRules W.WireWrite barred (reader.old, K.at walk.old, writer.old) (reader.new, K.at walk.new, writer.new) result out.old out.new }
    ensures room { out.new.room ≡ out.old.room }
    ensures short { length out.new.bytes ≤ length out.old.bytes + R.ahead reader.old }
{
    let mut cause = barred;
    'events: while walk.is_open() {
        match reader.next(walk.hint()) {
            Ok(event) => {
                let mark = walk.step(&event);
                let found = pass(writer, &event, mark, cause.is_some(), out);
                cause = first_cause(cause, found, reader.place());
            }
            Err(fault) => return Err(fault),
        }
    }
    Ok(cause)
}

/// The cause so far, or else this bar at this place.
#[inline(always)]
pub fn first_cause(cause: Option<Cause>, found: Option<Bar>, place: usize) -> Option<Cause>
    ensures { result ≡ first_cause cause found place }
{
    match (cause, found) {
        (Some(cause), _) => Some(cause),
        (None, Some(bar)) => Some(Cause::Barred { place, bar }),
        (None, None) => None,
    }
}

/// Writes the event, unless it or an earlier one is barred.
#[inline(always)]
fn pass<W: WireWrite>(
    writer: &mut W,
    event: &Event<'_>,
    mark: Mark,
    barred: bool,
    out: &mut Out,
) -> Option<Bar>
    requires sized { IsSized (item_of event.now) }
    requires open { barred ≡ false → 0 < W.depth writer.old }
    requires shallow { barred ≡ false → depth_after (item_of event.now) (W.depth writer.old) ≤ DEPTH }
    requires room { length out.old.bytes + weight (item_of event.now) ≤ out.old.room }
    ensures found { result ≡ tried barred (W.bar (item_of event.now) mark) }
    ensures state { writer.new ≡ (if goes_out barred (W.bar (item_of event.now) mark) then W.after writer.old (item_of event.now) mark else writer.old) }
    ensures out { out.new ≡ record out.old { bytes = with_item W.WireWrite barred writer.old (item_of event.now) mark out.old.bytes } }
{
    if barred {
        return None;
    }
    match W::takes(event, mark) {
        Ok(()) => {
            writer.put(event, mark, out);
            None
        }
        Err(bar) => Some(bar),
    }
}
