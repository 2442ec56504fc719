// The values of the link as numbers of a line.
use ld2410::{
    Ack, Baud, EnableConfig, Engineering, Error, FirmwareVersion, Frame, Mac, Report, Span, Target,
    TargetState,
};
use refusal::refusal_number;
use replay_io::line::Text;

// A value that a line has as a row of numbers: its fields, then its accessors.
pub trait Fields: Copy {
    // How many numbers they are.
    const COUNT: usize;

    // Puts them.
    fn put(self, out: &mut Text);
}

// Puts the numbers of a value; a zero for each if it is not there.
fn row<T: Fields>(out: &mut Text, value: Option<T>) {
    match value {
        Some(value) => value.put(out),
        None => {
            for _ in 0..T::COUNT {
                out.number(0u8);
            }
        }
    }
}

// Puts an answer: the number of its refusal, then its value.
pub fn answer<T: Fields>(out: &mut Text, answer: Result<T, Error>) {
    out.number(refusal_number(answer));
    row(out, answer.ok());
}

// Puts a value that may be absent: whether it is there, then the value.
pub fn there<T: Fields>(out: &mut Text, value: Option<T>) {
    out.number(value.is_some());
    row(out, value);
}

impl Fields for u8 {
    const COUNT: usize = 1;

    fn put(self, out: &mut Text) {
        out.number(self);
    }
}

impl Fields for TargetState {
    const COUNT: usize = 4;

    fn put(self, out: &mut Text) {
        out.number(self.to_byte());
        out.number(self.moving());
        out.number(self.stationary());
        out.number(self.present());
    }
}

impl Fields for Target {
    const COUNT: usize = 2;

    fn put(self, out: &mut Text) {
        out.number(self.distance_cm);
        out.number(self.energy);
    }
}

impl Fields for Report {
    const COUNT: usize = 50;

    fn put(self, out: &mut Text) {
        basic(out, self);
        engineering(out, self.engineering);
        there(out, self.moving());
        there(out, self.stationary());
        out.number(self.present());
        engineering_accessors(out, self.engineering);
    }
}

// Puts the fields of a report but for its engineering block.
fn basic(out: &mut Text, report: Report) {
    out.number(report.state.to_byte());
    out.number(report.moving_distance_cm);
    out.number(report.moving_energy);
    out.number(report.stationary_distance_cm);
    out.number(report.stationary_energy);
    out.number(report.detection_distance_cm);
    out.number(report.is_engineering());
}

// Puts the fields of an engineering block.
fn engineering(out: &mut Text, block: Engineering) {
    out.number(block.moving_gates);
    out.number(block.stationary_gates);
    out.numbers(&block.moving_energy);
    out.numbers(&block.stationary_energy);
    out.numbers(&block.extra);
    out.number(block.extra_len);
}

// Puts the accessors of an engineering block: three valid counts, `light` and `out_pin`.
fn engineering_accessors(out: &mut Text, block: Engineering) {
    out.number(block.moving().count);
    out.number(block.stationary().count);
    out.number(block.extra().count);
    there(out, block.light());
    there(out, block.out_pin());
}

// A payload, by start and length.
impl Fields for Span {
    const COUNT: usize = 2;

    fn put(self, out: &mut Text) {
        out.number(self.start);
        out.number(self.len);
    }
}

impl Fields for Ack {
    const COUNT: usize = 5;

    fn put(self, out: &mut Text) {
        out.number(self.word);
        out.number(self.ok);
        out.number(self.status);
        self.payload.put(out);
    }
}

impl Fields for EnableConfig {
    const COUNT: usize = 2;

    fn put(self, out: &mut Text) {
        out.number(self.protocol_version);
        out.number(self.buffer_size);
    }
}

impl Fields for FirmwareVersion {
    const COUNT: usize = 3;

    fn put(self, out: &mut Text) {
        out.number(self.firmware_type);
        out.number(self.major);
        out.number(self.minor);
    }
}

impl Fields for Mac {
    const COUNT: usize = 6;

    fn put(self, out: &mut Text) {
        out.numbers(&self.0);
    }
}

impl Fields for Baud {
    const COUNT: usize = 2;

    fn put(self, out: &mut Text) {
        out.number(self.index());
        out.number(self.bits_per_second());
    }
}

// Puts a frame: its kind, its report and its acknowledgement.
pub fn frame(out: &mut Text, frame: Option<Frame>) {
    let (kind, report, ack) = match frame {
        None => (0u8, None, None),
        Some(Frame::Report(report)) => (1, Some(report), None),
        Some(Frame::Ack(ack)) => (2, None, Some(ack)),
    };
    out.number(kind);
    row(out, report);
    row(out, ack);
}
