//! The bytes of a script.
ghost use Rattle.std.specs.Prelude.{◌≡◌, ◌≤◌, length, take};
ghost use Rattle.script.specs.Scripts.{script_of};

/// The most bytes that a script has. Bytes past these are no part of it.
pub const MOST_SCRIPT_BYTES: usize = 65_535;

/// The first bytes, at most so many.
pub(crate) fn first_bytes(bytes: &[u8], most: usize) -> &[u8]
    ensures bytes { result.now ≡ take most bytes.now }
    ensures few { length result.now ≤ most }
{
    &bytes[..bytes.len().min(most)]
}

/// The bytes that are a script's.
pub(crate) fn script_of(bytes: &[u8]) -> &[u8]
    ensures bytes { result.now ≡ script_of bytes.now }
    ensures few { length result.now ≤ 65535 }
{
    first_bytes(bytes, MOST_SCRIPT_BYTES)
}
