// What disturbed streams cost: the frames that they lose.
use std::fmt;
use wire::bump;

// The frames that one stream loses: how many, and the largest distance of one from the boundary.
#[derive(Clone, Copy, Default)]
pub struct Lost {
    frames: usize,
    farthest: usize,
}

impl Lost {
    // Counts a frame that is lost at a distance.
    pub fn count(&mut self, distance: usize) {
        self.frames = self.frames.saturating_add(1);
        self.farthest = self.farthest.max(distance);
    }
}

// The cost of a way's streams: how many there were, the frames that they lost, the most that one of them lost, and the
// largest distance of a lost frame.
#[derive(Clone, Copy, Default)]
pub struct Cost {
    streams: u64,
    lost: u64,
    most: usize,
    farthest: usize,
}

impl Cost {
    // Counts a stream that loses these frames.
    pub fn count(&mut self, lost: Lost) {
        self.streams = bump(self.streams, 1);
        self.lost = bump(self.lost, lost.frames);
        self.most = self.most.max(lost.frames);
        self.farthest = self.farthest.max(lost.farthest);
    }
}

impl fmt::Display for Cost {
    fn fmt<W: fmt::Write>(&self, f: &mut fmt::Formatter<W>) -> fmt::Result {
        let Cost {
            streams,
            lost,
            most,
            farthest,
        } = self;
        write!(
            f,
            "{streams} streams, {lost} whole frames lost, at most {most} in one, "
        )?;
        write!(f, "the farthest {farthest} bytes after the boundary")
    }
}
