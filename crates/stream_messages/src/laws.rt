//! That each stream of bytes is cut.
ghost use Rattle.std.specs.Prelude.{◌<◌, ◌^◌, ℕ, List};
ghost use Rattle.gate_base.specs.Bytes.{AreBytes};
ghost use Rattle.stream_messages.specs.declared.scan.Wire.{Wire};
ghost use Rattle.stream_messages.specs.Messages.{IsCut};

/// Each stream of bytes is cut into whole messages and a tail, as scans that go through it find them.
pub fn a_stream_is_cut()
    ensures { (wire : Wire) (limit : ℕ) (stream : List ℕ) → 0 < limit → limit < 2 ^ 64 → AreBytes stream → IsCut wire limit stream }
{}
