// A whole frame put into the caller's buffer, and the answer of every writer of frames: the bytes written.

#![tactic(auto)]

mod puts;

ghost use Rattle.std.specs.Prelude.{◌≡◌, false, length};
ghost use Rattle.wire.specs.Family.{framed};
ghost use Rattle.writer.specs.Written.{write_result, buffer_after, frame_refusal, framable, WriteCauses};

pub use puts::{put, put_record, put_u16, u16_bytes};
use refusal::Error;
use wire::{FRAMING, Kind, header_of, tail_of};

// Puts a frame of this kind with these data at the front: header, length, data, tail. Refuses with 6 data that no
// length can count, since no reader gives them, then with 4 a buffer shorter than the frame. Bytes after the frame
// stay. It is public only for the other crates of the link, and none of their writers frames so many data.
pub fn put_frame(out: &mut [u8], kind: Kind, data: &[u8]) -> Result<usize, Error>
    ensures told { result ≡ write_result (frame_refusal «data».now) (framed kind «data».now)
        (length out.old) }
    ensures left { out.new ≡ buffer_after (frame_refusal «data».now)
        (framed kind «data».now) out.old }
    ensures causes { WriteCauses 6 (framable «data».now ≡ false) (framed kind «data».now)
        (length out.old) result }
{
    let Ok(length) = u16::try_from(data.len()) else {
        return Err(Error::Unrepresentable);
    };
    let needed = FRAMING + data.len();
    if out.len() < needed {
        return Err(Error::BufferTooSmall { needed });
    }
    // The whole frame fits, so each put below finds its place.
    let header = header_of(kind);
    put(out, 0, &header);
    put_u16(out, 4, length);
    put(out, 6, data);
    let tail = tail_of(kind);
    put(out, 6 + data.len(), &tail);
    Ok(needed)
}
