// Bytes and numbers put at a place of the caller's buffer, each whole or not at all.
//
// Every function is total: a put past the end, or with too little space, answers `None` and changes no byte. Else it
// answers the place after the bytes.
ghost use Rattle.std.specs.Prelude.{◌≡◌, ◌++◌};
ghost use Rattle.wire.specs.Number.{le_bytes};
ghost use Rattle.writer.specs.Put.{placed, put_in};

// Returns the two bytes of a number, the lowest first. This and the next give std's bytes in the words of the
// definitions, `le_bytes`, which no caller then has to prove.
pub fn u16_bytes(v: u16) -> [u8; 2]
    ensures little { result ≡ le_bytes 2 v }
{
    v.to_le_bytes()
}

// Returns the four bytes of a number, the lowest first.
fn u32_bytes(v: u32) -> [u8; 4]
    ensures little { result ≡ le_bytes 4 v }
{
    v.to_le_bytes()
}

// Puts the bytes at place `at`. If they do not all fit, no byte changes.
#[tactic(auto, unfolding(crate::specs::Put::placed, crate::specs::Put::put_in, wire::specs::Prefix::over))]
pub fn put(out: &mut [u8], at: usize, bytes: &[u8]) -> Option<usize>
    ensures told { result ≡ placed out.old at bytes.now }
    ensures left { out.new ≡ put_in out.old at bytes.now }
{
    let end = at.checked_add(bytes.len())?;
    // Tests the length, since of `get_mut(at..end)?` it is not proved what the slice becomes.
    if out.len() < end {
        return None;
    }
    out[at..end].copy_from_slice(bytes);
    Some(end)
}

// Puts a two-byte number.
pub fn put_u16(out: &mut [u8], at: usize, v: u16) -> Option<usize>
    ensures told { result ≡ placed out.old at (le_bytes 2 v) }
    ensures left { out.new ≡ put_in out.old at (le_bytes 2 v) }
{
    put(out, at, &u16_bytes(v))
}

// Puts a record: a parameter's number in two bytes, its value in four.
pub fn put_record(out: &mut [u8], at: usize, param: u16, value: u32) -> Option<usize>
    ensures told { result ≡ placed out.old at (le_bytes 2 param ++ le_bytes 4 value) }
    ensures left { out.new ≡ put_in out.old at (le_bytes 2 param ++ le_bytes 4 value) }
{
    let p = u16_bytes(param);
    let v = u32_bytes(value);
    put(out, at, &[p[0], p[1], v[0], v[1], v[2], v[3]])
}
