//! The two parts of a name.
ghost use Rattle.std.specs.Prelude.{◌≡◌, ◌<◌, ◌≤◌, IfSome, length, option_copied};
ghost use Rattle.std.specs.List.{position};
ghost use Rattle.multiplex_names.specs.Names.{is_colon, split_of};

/// The service's name, where there is one, and the method's: what stands before the first colon, and what stands
/// behind it.
#[tactic(auto, unfolding(crate::specs::Names::split_of))]
pub fn split(name: &[u8]) -> (Option<&[u8]>, &[u8])
    ensures service { option_copied result.0 ≡ (split_of name.now).0 }
    ensures method { result.1.now ≡ (split_of name.now).1 }
    ensures shorter { length result.1.now ≤ length name.now }
{
    match first_colon(name) {
        Some(at) => (Some(&name[..at]), &name[at + 1..]),
        None => (None, name),
    }
}

// The place of the first colon.
fn first_colon(name: &[u8]) -> Option<usize>
    ensures place { result ≡ position is_colon name.now }
    ensures within { IfSome result (λ at. at < length name.now) }
{
    name.iter().position(|byte| *byte == b':')
}
