// What a call of the node answers (document 01, Answer numbers).
ghost use Rattle.std.specs.Prelude.{◌≡◌};
ghost use Rattle.channel.specs.Answers.{refusal_number, number_of, length_of, wanted_of, confirmed_of};

use packet::ReadError;

// An enum of its own and no `Result`: four endings, with document 01's numbers 0, 15, 9 and those of the refusals, and no caller leaves at one with `?`:
// the channel is stored and its lines are set right after each.
#[derive(Clone, Copy)]
pub enum Answer {
    // With the octets written, and the units that a Data Ack confirmed.
    Done { length: usize, confirmed: usize },
    // Acknowledged, not accepted; with the octets written.
    Repeated { length: usize },
    // This call made the channel inactive, for a reason.
    Inactive(u8),
    // Nothing has changed.
    Refused(Refusal),
}

#[derive(Clone, Copy)]
pub enum Refusal {
    Short,
    Damaged,
    Strange,
    Lacking,
    // The state does not allow it.
    State,
    // The unit has over M segments.
    Long,
    // Slots held and slots needed are over the slots.
    NoRoom,
    // The receive slots are full.
    Full,
    // Units are untaken or unreclaimed.
    Untaken,
    // The lent buffer is too small; with the octets that are wanted.
    Small(usize),
    // There is nothing to hand out.
    Nothing,
    // Bad settings, lines that are none of the table's, or a record that lacks its standing condition.
    Settings,
    NoChannel,
    // The ack is ignored.
    Ignored,
}

impl Answer {
    // The octets written, with 0 and 15.
    pub fn length(self) -> usize
        ensures { result ≡ length_of self }
    {
        match self {
            Answer::Done { length, .. } | Answer::Repeated { length } => length,
            _ => 0,
        }
    }

    // The octets that a lent buffer must have, with 11.
    pub fn wanted(self) -> usize
        ensures { result ≡ wanted_of self }
    {
        match self {
            Answer::Refused(Refusal::Small(octets)) => octets,
            _ => 0,
        }
    }

    // The units that a Data Ack confirmed, with 0.
    pub fn confirmed(self) -> usize
        ensures { result ≡ confirmed_of self }
    {
        match self {
            Answer::Done { confirmed, .. } => confirmed,
            _ => 0,
        }
    }
}

// Document 01's number.
impl From<Answer> for u32 {
    ghost from_gives = { λ answer number. number ≡ number_of answer };

    fn from(answer: Answer) -> u32 {
        match answer {
            Answer::Done { .. } => 0,
            Answer::Repeated { .. } => 15,
            Answer::Inactive(_) => 9,
            Answer::Refused(refusal) => u32::from(refusal),
        }
    }
}

impl From<Refusal> for u32 {
    ghost from_gives = { λ refusal number. number ≡ refusal_number refusal };

    fn from(refusal: Refusal) -> u32 {
        match refusal {
            Refusal::Short => 1,
            Refusal::Damaged => 2,
            Refusal::Strange => 3,
            Refusal::Lacking => 4,
            Refusal::State => 5,
            Refusal::Long => 6,
            Refusal::NoRoom => 7,
            Refusal::Full => 8,
            Refusal::Untaken => 10,
            Refusal::Small(_) => 11,
            Refusal::Nothing => 12,
            Refusal::Settings => 13,
            Refusal::NoChannel => 14,
            Refusal::Ignored => 16,
        }
    }
}

// A packet that is not read is refused for the same reason.
impl From<ReadError> for Refusal {
    ghost use Rattle.std.specs.Prelude.{◌≡◌};
    ghost use Rattle.channel.specs.Answers.{refusal_of};

    ghost from_gives = { λ unread refusal. refusal ≡ refusal_of unread };

    fn from(unread: ReadError) -> Refusal {
        match unread {
            ReadError::Short => Refusal::Short,
            ReadError::Damaged => Refusal::Damaged,
            ReadError::Lacking => Refusal::Lacking,
            ReadError::Strange => Refusal::Strange,
        }
    }
}
