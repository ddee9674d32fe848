// What the player writes: what a request answered, and what it had expected where it stops.
use std::fmt;

// What a request answered.
#[derive(Clone, Copy)]
pub enum Answer {
    // Its number.
    Refusal(u64),
    // Start, give back.
    Done,
    // Take.
    Offset(u64),
    // Which.
    Block { start: u64, size: u64 },
    // Figures: live, held and room.
    Figures { live: u64, held: u64, room: u64 },
    // Check-up.
    Sound,
    Unsound,
    // The most accesses that one request of each kind has made since the player began.
    Cost { take: u64, give: u64, which: u64 },
}

impl Answer {
    ghost use Rattle.std.specs.Prelude.{◌≡◌, MatchResult};
    ghost use Rattle.terms.specs.Answers.{number};
    ghost use Rattle.breatharena.specs.declared.answer.Answer.TheVariants.{Refusal};

    // What a request says: its refusal, or what `granted` makes of what it tells.
    pub fn of<T, F: FnOnce(T) -> Answer>(answer: Result<T, terms::Refusal>, granted: F) -> Answer
        requires { F.IsAlwaysCallable granted }
        ensures { MatchResult answer (λ told. F.post granted told result) (λ why. result ≡ Refusal (number why)) }
    {
        match answer {
            Ok(told) => granted(told),
            Err(why) => Answer::Refusal(why.number()),
        }
    }
}

impl fmt::Display for Answer {
    ghost use Rattle.std.specs.Prelude.{Some};
    ghost use Rattle.breatharena.specs.Text.{text};

    ghost output = { λ a. Some (text a) };

    fn fmt<W: fmt::Write>(&self, f: &mut fmt::Formatter<W>) -> fmt::Result {
        match self {
            Answer::Refusal(number) => write!(f, "refusal {number}"),
            Answer::Done => write!(f, "done"),
            Answer::Offset(offset) => write!(f, "{offset}"),
            Answer::Block { start, size } => write!(f, "{start} {size}"),
            Answer::Figures { live, held, room } => write!(f, "{live} {held} {room}"),
            Answer::Sound => write!(f, "sound"),
            Answer::Unsound => write!(f, "unsound"),
            Answer::Cost { take, give, which } => write!(f, "{take} {give} {which}"),
        }
    }
}

// What a line of the script should have been where the player stops.
#[derive(Clone, Copy)]
pub enum Expected {
    Line,
    Bit,
    // A line of so many bytes at most.
    AtMost(usize),
}

impl fmt::Display for Expected {
    fn fmt<W: fmt::Write>(&self, f: &mut fmt::Formatter<W>) -> fmt::Result {
        match self {
            Expected::Line => write!(
                f,
                "one of arena M, table short, table whole, start, take N, give N, which N, figures, checkup, flip CELL BIT, cost; numbers are plain decimal below 2^64"
            ),
            Expected::Bit => write!(f, "a CELL within the lent table and a BIT below 64"),
            Expected::AtMost(bytes) => write!(f, "a line of at most {bytes} bytes"),
        }
    }
}
