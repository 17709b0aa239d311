//! Frames that are converted one after another, from the bytes that are held into cells of the page: the places are kept by value,
//! and neither buffer is asked for each frame.
ghost use Rattle.std.specs.Prelude.{◌≡◌, ◌+◌, ◌^◌, ◌<◌, ◌≤◌, ◌++◌, length, take, drop, IfSome};
ghost use Rattle.std.specs.Int.{to_be_bytes, w32};
ghost use Rattle.translate_known.specs.Laid.{IsLaid};
ghost use Rattle.gate_streams.specs.Running.{ConvertsNext, IsConversion, Runs};
ghost use Rattle.gate_streams.specs.Rooms.{framed_room, translated_room};
ghost use Rattle.gate_streams.specs.Terms.{judged_by};

use crate::task::Task;
use gate_words::GREATEST_LIMIT;
use line_transport::whole_frame;
use protocol_pairs::Pair;

/// A frame's length takes so many bytes.
const LENGTH: usize = 4;

/// How far a run of frames came: so many bytes of the input and so many cells, for so many frames.
#[derive(Clone, Copy)]
pub struct Run {
    pub read: usize,
    pub written: usize,
    pub frames: u64,
}

/// Converts the frames at the front of what is held as long as they pass and there are cells for what is written of them.
#[inline(always)]
pub fn convert_run<P: Pair>(task: &Task<'_>, held: &[u8], room: &mut [u8], cells: &mut [u8]) -> Run
    requires conversion { IsConversion task.now P.from P.to }
    requires limit { task.now.limit ≤ GREATEST_LIMIT }
    requires room { task.now.limit ≤ length room.old }
    requires small { length cells.old < 2 ^ 31 }
    ensures kept { length cells.new ≡ length cells.old }
    ensures read { result.read ≤ length held.now }
    ensures written { result.written ≤ length cells.new }
    ensures counted { result.frames ≤ result.read }
    ensures runs { Runs task.now held.now (drop result.read held.now) result.frames (take result.written cells.new) }
{
    let mut read = 0;
    let mut written = 0;
    let mut frames = 0;
    'frames: loop {
        let Some((size, count)) = convert_next::<P>(task, &held[read..], room, cells, written)
        else {
            return Run {
                read,
                written,
                frames,
            };
        };
        read += LENGTH + size;
        written += LENGTH + count;
        frames += 1;
    }
}

/// Converts the frame at the front of some bytes into the cells from a place on, with its length: how many bytes it has, and
/// how many its translation has. None says nothing of the frame.
#[inline(always)]
fn convert_next<P: Pair>(
    task: &Task<'_>,
    held: &[u8],
    room: &mut [u8],
    cells: &mut [u8],
    to: usize,
) -> Option<(usize, usize)>
    requires limit { task.now.limit ≤ GREATEST_LIMIT }
    requires room { task.now.limit ≤ length room.old }
    requires place { to ≤ length cells.old }
    requires small { length cells.old < 2 ^ 31 }
    ensures kept { length cells.new ≡ length cells.old }
    ensures front { take to cells.new ≡ take to cells.old }
    ensures within { IfSome result (λ x. (4 + x.0 ≤ length held.now) × (to + (4 + x.1) ≤ length cells.old)) }
    ensures next { IfSome result (λ x. ConvertsNext task.now P.from P.to held.now x.0 (take to cells.old) (take (to + (4 + x.1)) cells.new)) }
{
    let frame = whole_frame(held, task.limit())?;
    let size = frame.len();
    if framed_room(size) > cells.len() - to {
        return None;
    }
    let count = lay_behind::<P>(task, frame, room, cells, to + LENGTH)?;
    lay_length(cells, to, count);
    Some((size, count))
}

/// Lays a frame's translation into the cells from a place on, and answers how many it took. None says nothing of the frame.
#[inline(always)]
fn lay_behind<P: Pair>(
    task: &Task<'_>,
    frame: &[u8],
    room: &mut [u8],
    cells: &mut [u8],
    at: usize,
) -> Option<usize>
    requires size { length frame.now ≤ GREATEST_LIMIT }
    requires room { length frame.now ≤ length room.old }
    requires fits { at + translated_room (length frame.now) ≤ length cells.old }
    ensures kept { length cells.new ≡ length cells.old }
    ensures front { take at cells.new ≡ take at cells.old }
    ensures short { IfSome result (λ n. n ≤ translated_room (length frame.now)) }
    ensures laid { IfSome result (λ n. IsLaid (take n (drop at cells.new)) (judged_by task.now P.from P.to frame.now)) }
{
    task.lay::<P>(frame, room, &mut cells[at..])
}

/// Lays a frame's length into four cells. It is turned as a number: two turns of one that was read are none, so a frame that keeps its
/// length has it laid as it came.
#[inline(always)]
fn lay_length(cells: &mut [u8], to: usize, size: usize)
    requires room { to + 4 ≤ length cells.old }
    requires small { size < 2 ^ 31 }
    ensures { cells.new ≡ take to cells.old ++ to_be_bytes w32 size ++ drop (to + 4) cells.old }
{
    let turned = (size as u32).swap_bytes();
    cells[to..to + LENGTH].copy_from_slice(&turned.to_le_bytes());
}

/// The room for what is written of a frame of so many bytes.
#[inline(always)]
pub fn framed_room(size: usize) -> usize
    requires { size ≤ GREATEST_LIMIT }
    ensures { result ≡ framed_room size }
{
    24 * size + 260
}
