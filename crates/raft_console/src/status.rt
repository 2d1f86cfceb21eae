//! The status with which the program ends.

#[derive(Clone, Copy, PartialEq, Eq)]
pub enum Status {
    Done,
    /// The requested thing doesn't exist: no such key or entry, or a gap among numbered keys.
    Absent,
    /// An opening would cut something off.
    WouldCut,
    /// An opening would fail.
    WouldFail,
    /// An opening would pass log files over, since a number after them is missing or their folder
    /// isn't read.
    WouldPass,
    /// A change was refused before anything was done, since its opening would lose more than an
    /// unsynced tail explains.
    Refused,
}

impl Status {
    pub fn code(self) -> u8 {
        match self {
            Status::Done => 0,
            Status::Absent => 3,
            Status::WouldCut => 4,
            Status::WouldFail => 5,
            Status::WouldPass => 6,
            Status::Refused => 7,
        }
    }

    /// The graver one of two statuses: a failure, then files that are passed over, then a cut.
    pub fn or_worse(self, other: Status) -> Status {
        if self.rank() < other.rank() {
            other
        } else {
            self
        }
    }

    fn rank(self) -> u8 {
        match self {
            Status::Done | Status::Absent | Status::Refused => 0,
            Status::WouldCut => 1,
            Status::WouldPass => 2,
            Status::WouldFail => 3,
        }
    }
}
