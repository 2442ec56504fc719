// Numbers: read from bytes, little-endian, and counters that stop at their maximum.
//
// Every function is total: if bytes are missing, the answer is `None`.
ghost use Rattle.std.specs.Prelude.{◌≡◌};
ghost use Rattle.wire.specs.Number.{byte_at, le16_at, le32_at};
ghost use Rattle.wire.specs.Counter.{bumped};

// Returns the byte at `at`, or `None` if the slice is too short.
pub fn byte_at(bytes: &[u8], at: usize) -> Option<u8>
    ensures read { result ≡ byte_at bytes.now at }
{
    bytes.get(at).copied()
}

// Returns the little-endian `u16` at `at`, or `None` if the slice is too short. It and `le32` are two halves put
// together, each by its own type: one function for both would be no plainer.
pub fn le16(bytes: &[u8], at: usize) -> Option<u16>
    ensures read { result ≡ le16_at bytes.now at }
{
    let low = byte_at(bytes, at)?;
    let high = byte_at(bytes, at + 1)?;
    Some(low as u16 + 256 * (high as u16))
}

// Returns the little-endian `u32` at `at`, or `None` if the slice is too short.
pub fn le32(bytes: &[u8], at: usize) -> Option<u32>
    ensures read { result ≡ le32_at bytes.now at }
{
    let low = le16(bytes, at)?;
    let high = le16(bytes, at + 2)?;
    Some(low as u32 + 65536 * (high as u32))
}

// Returns the counter after `by` more; it stops at the largest number of 64 bits.
#[tactic(auto, unfolding(crate::specs::Counter::bumped))]
pub fn bump(counter: u64, by: usize) -> u64
    ensures counted { result ≡ bumped counter by }
{
    counter.saturating_add(by as u64)
}
