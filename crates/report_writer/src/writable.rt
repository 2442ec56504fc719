// Which reports can be written: those that the reader can give, with at most eight reserved bytes.
ghost use Rattle.std.specs.Prelude.{◌≡◌, drop};
ghost use Rattle.report_writer.specs.Writable.{all_zero, counted, within, writable};

use engineering::Engineering;
use report::Report;

// Fewest moving, or stationary, gates that an engineering block reports.
const MIN_GATES: u8 = 1;
// Most moving, or stationary, gates that it reports.
const MAX_GATES: u8 = 9;
// Most reserved bytes that the reader keeps.
const MAX_RESERVED: u8 = 8;

// Tests whether the entries from a place on are all 0.
fn zero_from(s: &[u8], from: usize) -> bool
    ensures tested { result ≡ all_zero (drop from s.now) }
{
    s.iter().skip(from).all(|x| *x == 0)
}

// Tests whether the count is within two bounds, and the entries after it are all 0.
#[tactic(auto, unfolding(crate::specs::Writable::counted))]
fn is_counted(s: &[u8], count: u8, least: u8, most: u8) -> bool
    ensures tested { result ≡ counted least most count s.now }
{
    (least..=most).contains(&count) && zero_from(s, count as usize)
}

// Tests whether each count of energies is `least` to `gates`, that of reserved bytes at most `extra`, and the rest 0.
#[tactic(auto, unfolding(crate::specs::Writable::within))]
fn is_within(e: Engineering, least: u8, gates: u8, extra: u8) -> bool
    ensures tested { result ≡ within least gates extra e }
{
    is_counted(&e.moving_energy, e.moving_gates, least, gates)
        && is_counted(&e.stationary_energy, e.stationary_gates, least, gates)
        && is_counted(&e.extra, e.extra_len, 0, extra)
}

// Tests whether the reader can give the report, with at most eight reserved bytes.
pub(crate) fn is_writable(report: Report) -> bool
    ensures tested { result ≡ writable report }
{
    let e = report.engineering;
    if report.has_engineering {
        is_within(e, MIN_GATES, MAX_GATES, MAX_RESERVED)
    } else {
        is_within(e, 0, 0, 0)
    }
}
