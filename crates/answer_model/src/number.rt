// The numbers of the statuses.
ghost use Rattle.std.specs.Prelude.{◌≡◌};
ghost use Rattle.answer_model.specs.StatusNumbers.{number_of};

use crate::status::Status;

impl Status {
    /// The number that a process ends with.
    pub fn number(self) -> u8
        ensures { result ≡ number_of self }
    {
        match self {
            Status::Done => 0,
            Status::Usage => 2,
            Status::Missing => 3,
            Status::ReadFault => 4,
            Status::WriteFault => 5,
            Status::ModelRefused => 6,
            Status::EventsRefused => 7,
            Status::NoTrueRule => 8,
            Status::Overflow => 9,
            Status::BadDelay => 10,
            Status::TooManyCycles => 11,
            Status::NoMemory => 12,
            Status::LogRefused => 13,
            Status::StateRefused => 14,
        }
    }
}
