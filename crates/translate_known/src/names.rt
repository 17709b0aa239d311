//! Whether a message's name can be written.
ghost use Rattle.std.specs.Prelude.{◌≡◌, true, None};

use protocol_traits::FormWrite;

/// Whether the writer's protocol can hold a name.
#[inline(always)]
pub fn holds_name<W: FormWrite>(name: &[u8]) -> bool
    ensures { result ≡ true → W.name_bar name.now ≡ None }
{
    match W::takes_name(name) {
        Ok(()) => true,
        Err(_) => false,
    }
}
