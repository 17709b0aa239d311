//! The name under which a file is included.
ghost use Rattle.std.specs.Prelude.{◌≡◌, ◌<◌, length, IfSome, option_copied};
ghost use Rattle.idl_names.specs.Paths.{base_by, base_name, before, is_dots, last_place, last_segment};

/// The place of the last of these bytes.
pub fn last_place(bytes: &[u8], mark: u8) -> Option<usize>
    ensures place { result ≡ last_place mark bytes.now }
    ensures within { IfSome result (λ place. place < length bytes.now) }
{
    let mut front = bytes;
    'bytes: while let Some((last, rest)) = front.split_last() {
        if *last == mark {
            return Some(rest.len());
        }
        front = rest;
    }
    None
}

/// The base name of an include's path: its last segment, cut before that segment's last dot. The segments `.` and `..`
/// have none.
#[tactic(auto, unfolding(crate::specs::Paths::base_name))]
pub fn base_name(path: &[u8]) -> Option<&[u8]>
    ensures { option_copied result ≡ base_name path.now }
{
    base_of(last_segment(path))
}

fn base_of(segment: &[u8]) -> Option<&[u8]>
    ensures { option_copied result ≡ base_by segment.now }
{
    if is_dots(segment) {
        return None;
    }
    Some(before_dot(segment))
}

fn is_dots(segment: &[u8]) -> bool
    ensures { result ≡ is_dots segment.now }
{
    segment == b".".as_slice() || segment == b"..".as_slice()
}

fn last_segment(path: &[u8]) -> &[u8]
    ensures { result.now ≡ last_segment path.now }
{
    match last_place(path, b'/') {
        None => path,
        Some(slash) => &path[slash + 1..],
    }
}

fn before_dot(segment: &[u8]) -> &[u8]
    ensures { result.now ≡ before (last_place 46 segment.now) segment.now }
{
    match last_place(segment, b'.') {
        None => segment,
        Some(dot) => &segment[..dot],
    }
}
