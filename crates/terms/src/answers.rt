// What is answered: what a granted request tells, or why it is refused (sections 3 and 4).
ghost use Rattle.std.specs.Prelude.{◌≡◌};
ghost use Rattle.terms.specs.Answers.{number};

// Why a request is refused, by document 01's number.
#[derive(Clone, Copy, PartialEq, Eq)]
pub enum Refusal {
    // No byte is asked for.
    NoBytes = 1,
    // More bytes are asked for than the arena has.
    BeyondArena = 2,
    // The live blocks leave no room.
    NoRoom = 3,
    // No live block is there.
    NotLive = 4,
    // The table lent is too short for m.
    ShortTable = 5,
    // m is too large.
    LargeArena = 6,
}

impl Refusal {
    // Document 01's number.
    pub fn number(self) -> u64
        ensures { result ≡ number self }
    {
        self as u64
    }
}

// A block: its offset and its size in bytes.
#[derive(Clone, Copy)]
pub struct Block {
    pub start: u64,
    pub size: u64,
}

// Bytes live, bytes held, and the room.
#[derive(Clone, Copy)]
pub struct Figures {
    pub live: u64,
    pub held: u64,
    pub room: u64,
}
