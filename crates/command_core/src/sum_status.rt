//! The status of `sum`.

ghost use Rattle.std.specs.Prelude.{◌≡◌, ◌≤◌};
ghost use Rattle.command_core.specs.Outcomes.{sum_number};
ghost use Rattle.command_core.specs.SumEndings.{worse};

/// What the files of `sum` came to.
#[derive(Clone, Copy)]
pub enum SumStatus {
    /// All were summed, or are as they are listed.
    Done,
    /// One is not as it is listed.
    NotAsListed,
    /// There was a fault.
    Failed,
}

impl SumStatus {
    /// The number of the status.
    pub(crate) fn number(self) -> u8
        ensures value { result ≡ sum_number self }
        ensures limit { result ≤ 2 }
    {
        match self {
            SumStatus::Done => 0,
            SumStatus::NotAsListed => 1,
            SumStatus::Failed => 2,
        }
    }

    /// The worse of this and another.
    pub(crate) fn or(self, other: SumStatus) -> SumStatus
        ensures { result ≡ worse self other }
    {
        match (self, other) {
            (SumStatus::Done, other) => other,
            (SumStatus::NotAsListed, SumStatus::Failed) => SumStatus::Failed,
            (worse, _) => worse,
        }
    }
}
