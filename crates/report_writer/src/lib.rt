// Writing report frames: it can write every report that the reader gives, with at most eight reserved bytes.
//
// What the reader cannot give is refused, so that reading what was written gives the report.

#![tactic(auto)]

mod report_data;
mod writable;

ghost use Rattle.std.specs.Prelude.{◌≡◌, false, length};
ghost use Rattle.writer.specs.Written.{write_result, buffer_after, WriteCauses};
ghost use Rattle.writer.specs.RoundTrip.{RoundTrip};
ghost use Rattle.report_writer.specs.Data.{report_frame};
ghost use Rattle.report_writer.specs.Writable.{writable, unrepresentable};
ghost use Rattle.report_writer.specs.RoundTrip.{reports};

use refusal::Error;
use report::Report;
use report_data::{MAX_REPORT, encode_data};
use wire::Kind;
use writable::is_writable;
use writer::put_frame;

// Writes the report's frame into the front of `out`, and returns the number of bytes written. Refuses with 6 a report
// that the reader cannot give, or one with more than eight reserved bytes; then with 4 a buffer shorter than the frame.
// Bytes after the frame stay, and a refused call changes none.
pub fn write_report(out: &mut [u8], report: Report) -> Result<usize, Error>
    ensures told { result ≡ write_result (unrepresentable report) (report_frame report) (length out.old) }
    ensures left { out.new ≡ buffer_after (unrepresentable report) (report_frame report)
        out.old }
    ensures causes { WriteCauses 6 (writable report ≡ false) (report_frame report)
        (length out.old) result }
    ensures round { RoundTrip reports report }
{
    if !is_writable(report) {
        return Err(Error::Unrepresentable);
    }
    // The data stand in an array with their length beside it: the link's crates have no heap.
    let mut data = [0; MAX_REPORT];
    let len = encode_data(&mut data, report);
    put_frame(out, Kind::Report, &data[..len])
}
