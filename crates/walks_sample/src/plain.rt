// The plain types of the sample.

// A record of the table: whom it is with, and how often it was served.
#[derive(Clone, Copy)]
pub struct Channel {
    pub peer: u64,
    pub count: u32,
}

// What a record is made of.
#[derive(Clone, Copy)]
pub struct Settings {
    pub peer: u64,
    pub kind: u8,
}

// What is asked: each of the record at an index.
#[derive(Clone, Copy)]
pub enum Request {
    Open(usize),
    Move(usize, usize),
    Transfer(usize),
    Take(usize),
    Arrival(usize),
}

// What a call answers: 0 where it was done, 1 where it was refused, and an index.
#[derive(Clone, Copy)]
pub struct Told {
    pub code: u32,
    pub index: usize,
}

// The same under another type.
#[derive(Clone, Copy)]
pub struct Said {
    pub code: u32,
    pub done: bool,
}

// What the records so far have shown: whether each can be counted on, and the index that is asked for.
#[derive(Clone, Copy)]
pub struct Survey {
    pub sound: bool,
    pub at: usize,
}

// The index of the record that is served, and what is told where it is no index of the table.
#[derive(Clone, Copy)]
pub struct Decision {
    pub at: usize,
    pub told: Told,
}

// The record that was served, as it is stored again, and what is told of it.
#[derive(Clone, Copy)]
pub struct Placed {
    pub channel: Channel,
    pub told: Told,
}

// Whether a call is done, and what is told if it is not.
#[derive(Clone, Copy)]
pub struct Verdict {
    pub holds: bool,
    pub told: Told,
}

// What is carried over the table: the peer of the record before.
#[derive(Clone, Copy)]
pub struct Round {
    pub peer: u64,
}

// A record that was swept, and what is carried on.
#[derive(Clone, Copy)]
pub struct Swept {
    pub channel: Channel,
    pub round: Round,
}

// An answer, and the table that it leaves.
#[derive(Clone, Copy)]
pub struct Kept {
    pub told: Told,
    pub table: [Channel; 2],
}
