// The pieces of a load, each put as a whole or not at all.
ghost use Rattle.std.specs.Prelude.{◌≡◌};
ghost use Rattle.writer.specs.Put.{placed, put_in};
ghost use Rattle.load_writer.specs.Load.{after, drawn, basic_report, piece};

use crate::draws::Draws;
use writer::put;

// Bytes of a basic report's frame.
const REPORT_LEN: usize = 23;

// Draws the nine basic bytes of a basic report, and returns its frame.
#[tactic(auto, unfolding(wire::specs::Family::framed, writer::specs::Put::put_in, wire::specs::Prefix::over))]
fn draw_report(draws: &mut Draws) -> [u8; REPORT_LEN]
    ensures drawn { result ≡ basic_report (drawn 9 draws.old) }
    ensures holds { draws.new ≡ after 9 draws.old }
{
    let basic = draws.nine();
    let mut bytes = [0; REPORT_LEN];
    put(&mut bytes, 0, b"\xF4\xF3\xF2\xF1\x0D\x00\x02\xAA");
    put(&mut bytes, 8, &basic);
    put(&mut bytes, 17, b"\x55\x00\xF8\xF7\xF6\xF5");
    bytes
}

// Draws the next piece, puts it at place `at`, and returns where it ends. Where it does not fit, no byte changes.
#[tactic(auto, unfolding(crate::specs::Load::piece))]
pub(crate) fn put_piece(out: &mut [u8], at: usize, draws: &mut Draws) -> Option<usize>
    ensures told { result ≡ placed out.old at (piece draws.old).bytes }
    ensures left { out.new ≡ put_in out.old at (piece draws.old).bytes }
    ensures holds { draws.new ≡ (piece draws.old).next }
{
    match draws.draw() % 4 {
        0 => put(out, at, &[draws.byte()]),
        1 => put(out, at, &draw_report(draws)),
        2 => put(out, at, &draw_report(draws)[..REPORT_LEN - 1]),
        _ => put(
            out,
            at,
            b"\xFD\xFC\xFB\xFA\x08\x00\xFF\x01\x00\x00\x01\x00\x40\x00\x04\x03\x02\x01",
        ),
    }
}
