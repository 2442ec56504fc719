// A report that can be written, as a frame's data.
ghost use Rattle.std.specs.Prelude.{◌≡◌, true, ◌+◌, ◌≤◌, length, take};
ghost use Rattle.writer.specs.Put.{put_in};
ghost use Rattle.report_writer.specs.Writable.{writable};
ghost use Rattle.report_writer.specs.Data.{type_of, front_of, block_of, report_data};

use report::{REPORT_HEAD, REPORT_TRAILER, Report};
use writer::{put, u16_bytes};

// Bytes before the engineering block: data type, head byte and the nine basic bytes.
const FRONT_LEN: usize = 11;
// Most data bytes of a report: the front, two counts, nine energies of each, eight reserved bytes, the two at the end.
pub const MAX_REPORT: usize = 41;

// Returns the data type, by whether there is an engineering block.
fn data_type(has_engineering: bool) -> u8
    ensures typed { result ≡ type_of has_engineering }
{
    if has_engineering { 0x01 } else { 0x02 }
}

// Returns the bytes before the engineering block: type, head byte, nine basic bytes.
#[tactic(auto, unfolding(crate::specs::Data::front_of))]
fn front(report: Report) -> [u8; FRONT_LEN]
    ensures made { result ≡ front_of report }
{
    let moving = u16_bytes(report.moving_distance_cm);
    let stationary = u16_bytes(report.stationary_distance_cm);
    let detection = u16_bytes(report.detection_distance_cm);
    [
        data_type(report.has_engineering),
        REPORT_HEAD,
        report.state.to_byte(),
        moving[0],
        moving[1],
        report.moving_energy,
        stationary[0],
        stationary[1],
        report.stationary_energy,
        detection[0],
        detection[1],
    ]
}

// Puts the first `count` entries of `s` at place `at`, and returns where they end.
fn put_first(data: &mut [u8], at: usize, s: &[u8], count: u8) -> usize
    requires inside { count ≤ length s.now }
    requires room { at + count ≤ length «data».old }
    ensures told { result ≡ at + count }
    ensures left { «data».new ≡ put_in «data».old at (take count s.now) }
{
    let n = count as usize;
    put(data, at, &s[..n]);
    at + n
}

// Puts the engineering block after the front, if there is one, and returns where it ends.
fn put_block(data: &mut [u8], report: Report) -> usize
    requires good { writable report ≡ true }
    requires room { 41 ≤ length «data».old }
    ensures told { result ≡ 11 + length (block_of report) }
    ensures left { «data».new ≡ put_in «data».old 11 (block_of report) }
{
    if !report.has_engineering {
        return FRONT_LEN;
    }
    let e = report.engineering;
    put(
        data,
        FRONT_LEN,
        &[e.moving_gates - 1, e.stationary_gates - 1],
    );
    let moving_end = put_first(data, FRONT_LEN + 2, &e.moving_energy, e.moving_gates);
    let stationary_end = put_first(data, moving_end, &e.stationary_energy, e.stationary_gates);
    put_first(data, stationary_end, &e.extra, e.extra_len)
}

// Encodes the report as its data at the front of an array, and returns how many bytes they are.
pub(crate) fn encode_data(data: &mut [u8], report: Report) -> usize
    requires good { writable report ≡ true }
    requires room { 41 ≤ length «data».old }
    ensures told { result ≡ length (report_data report) }
    ensures left { take result «data».new ≡ report_data report }
{
    put(data, 0, &front(report));
    let end = put_block(data, report);
    put(data, end, &REPORT_TRAILER);
    end + 2
}
