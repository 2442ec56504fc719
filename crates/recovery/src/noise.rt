// The runs of noise.
use ld2410::{Kind, MAX_DATA};

// A run, as long as the largest data.
pub type Run = [u8; MAX_DATA];

// What a run of noise holds.
#[derive(Clone, Copy)]
pub enum Noise {
    // One byte over and over.
    Same(u8),
    // Zeros, and after them a header and the largest length: the next bytes are taken for data.
    Begun([u8; 4]),
    // Bytes, none of which begins a header.
    Mixed,
}

impl Noise {
    // The runs that are put in.
    pub const ALL: [Noise; 5] = [
        Noise::Same(0xF4),
        Noise::Same(0),
        Noise::Begun(Kind::REPORT_HEADER),
        Noise::Begun(Kind::COMMAND_HEADER),
        Noise::Mixed,
    ];

    // Returns the run.
    pub fn run(self) -> Run {
        match self {
            Noise::Same(byte) => [byte; MAX_DATA],
            Noise::Begun(header) => begun(header),
            Noise::Mixed => mixed(),
        }
    }
}

fn begun(header: [u8; 4]) -> Run {
    let mut run = [0; MAX_DATA];
    run[MAX_DATA - 6..MAX_DATA - 2].copy_from_slice(&header);
    run[MAX_DATA - 2] = MAX_DATA as u8;
    run
}

fn mixed() -> Run {
    let mut run = [0; MAX_DATA];
    let mut next = 11u8;
    for byte in &mut run {
        *byte = next;
        next = next.wrapping_add(37);
    }
    run
}
