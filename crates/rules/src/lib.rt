// The session record, the calls, and what they answer: the types that the definitions speak of. No code.
#![tactic(auto)]

use stamps::{Message, PerSource, Source};

// Of one source: rows accepted, and whether it is closed.
#[derive(Clone, Copy)]
pub struct Feed {
    pub rows: u32,
    pub closed: bool,
}

// P, M, N, the clock, the two sources, the entry count of each list by its number, the drain position, and for each source the position of its
// lone calls: the rows up to there have been passed.
#[derive(Clone, Copy)]
pub struct Session {
    pub parts: u32,
    pub slots: u32,
    pub limit: u32,
    pub clock: u32,
    pub feeds: PerSource<Feed>,
    pub counts: [u32; 32],
    pub next: u32,
    pub lone: PerSource<u32>,
}

#[derive(Clone, Copy, PartialEq, Eq)]
pub enum Call {
    Arrive(Source, Message),
    Evict(Source, u32),
    Run(Source, u32),
    Close(Source),
    Drain,
    Lone(Source),
}

// Why a call is refused. The last two are the program's.
#[derive(Clone, Copy, PartialEq, Eq)]
pub enum Why {
    BadSheet,
    BadKey,
    BadPart,
    Closed,
    SheetFull,
    ListFull,
    StillOpen,
    RoomShort(u32),
    BadLine,
    NoStart,
}

#[derive(Clone, Copy, PartialEq, Eq)]
pub enum Answer {
    Opened,
    Taken(u32),
    Flushed(u32),
    Ran(u32),
    Shut,
    More(u32),
    Done(u32),
    MoreLone(u32),
    DoneLone(u32),
    Refused(Why),
}

// What a call hands back.
#[derive(Clone, Copy)]
pub struct Reply {
    pub answer: Answer,
    pub session: Session,
}
