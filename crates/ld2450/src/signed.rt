// Two-byte numbers with their own sign: the top bit set means plus, clear means minus.
ghost use Rattle.std.specs.Prelude.{◌≡◌, true};
ghost use Rattle.ld2450.specs.Signed.{signed_of, sayable, raw_of};

// Returns the number that a two-byte number means.
#[tactic(auto, unfolding(crate::specs::Signed::signed_of))]
pub(crate) fn signed(raw: u16) -> i16
    ensures said { result ≡ signed_of raw }
{
    let low = (raw % 0x8000) as i16;
    if raw >= 0x8000 { low } else { -low }
}

// Tests whether some two-byte number means `x`.
pub(crate) fn sayable(x: i16) -> bool
    ensures tested { result ≡ sayable x }
{
    x != i16::MIN
}

// Returns the two-byte number that is written for `x`.
pub(crate) fn raw_of(x: i16) -> u16
    requires can { sayable x ≡ true }
    ensures told { result ≡ raw_of x }
{
    let size = x.unsigned_abs();
    if x < 0 { size } else { 0x8000 + size }
}
