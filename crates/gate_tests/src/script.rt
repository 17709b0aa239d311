//! What comes to the one session of a server in memory, as a list of acts, and what the session shows.
ghost use Rattle.std.specs.Prelude.{◌<◌};

use crate::outside::{Outside, run_line, with_input};
use gate_base::{OutOfMemory, Text};
use gate_hub::Side;
use gate_memory::{HubStep, HubSteps, MemHub};
use std::alloc::Global;

/// Something that happens at the session.
#[derive(Clone, Copy)]
pub enum Act<'b> {
    Connects,
    /// These bytes arrive.
    Sends(Side, &'b [u8]),
    Ends(Side),
    /// So many more bytes can be written.
    HasRoom(Side, u64),
    /// The next read or write fails.
    Breaks(Side),
}

/// What a session shows: all that each side is sent, and the line of its end.
#[derive(Clone, Copy)]
pub struct Shown<'b> {
    pub client: &'b [u8],
    pub upstream: &'b [u8],
    pub ending: &'b [u8],
}

/// The step of a hub in memory that an act is.
fn step_of(alloc: Global, act: &Act<'_>) -> Result<HubStep, OutOfMemory> {
    Ok(match *act {
        Act::Connects => HubStep::Connect,
        Act::Sends(side, bytes) => HubStep::Arrive {
            session: 0,
            side,
            bytes: Text::new(alloc, bytes)?,
        },
        Act::Ends(side) => HubStep::Finish { session: 0, side },
        Act::HasRoom(side, bytes) => HubStep::Room {
            session: 0,
            side,
            bytes,
        },
        Act::Breaks(side) => HubStep::Break { session: 0, side },
    })
}

/// The steps of a hub in memory that does these acts.
pub fn steps_of(alloc: Global, acts: &[Act<'_>]) -> Result<HubSteps, OutOfMemory> {
    let mut steps = HubSteps::new(alloc);
    for act in acts {
        steps.push(step_of(alloc, act)?)?;
    }
    Ok(steps)
}

/// An outside whose hub does these acts, and moves so many bytes at most in a call.
pub fn with_acts(alloc: Global, acts: &[Act<'_>], chunk: usize) -> Result<Outside, OutOfMemory>
    requires { 0 < chunk }
{
    let hub = MemHub::new(alloc, steps_of(alloc, acts)?, chunk)?;
    let mut outside = with_input(alloc, b"")?;
    outside.hub = hub;
    Ok(outside)
}

/// Whether this was sent and written, and nothing was reported.
fn was_shown(outside: &Outside, shown: &Shown<'_>) -> bool {
    outside.hub.sent_to(0, Side::Client) == shown.client
        && outside.hub.sent_to(0, Side::Upstream) == shown.upstream
        && outside.output.bytes() == shown.ending
        && outside.report.bytes().is_empty()
}

/// Whether the server of this line shows this, without a word on the report. The file `m.thrift` has the text `idl`.
fn serves_as(
    alloc: Global,
    line: &[u8],
    idl: &'static [u8],
    outside: &mut Outside,
    shown: &Shown<'_>,
) -> Result<bool, OutOfMemory> {
    if idl.len() < 1000 {
        outside.files.put(b"m.thrift", idl)?;
    }
    let code = run_line(alloc, line, outside)?;
    Ok(code == 0 && was_shown(outside, shown))
}

/// Runs a server over a hub at which this happens, and which moves so many bytes at most in a call, and says whether it shows
/// this. The file `m.thrift` has the text `idl`.
pub fn shows(
    alloc: Global,
    line: &[u8],
    idl: &'static [u8],
    acts: &[Act<'_>],
    chunk: usize,
    shown: &Shown<'_>,
) -> Result<bool, OutOfMemory>
    requires { 0 < chunk }
{
    let mut outside = with_acts(alloc, acts, chunk)?;
    serves_as(alloc, line, idl, &mut outside, shown)
}
