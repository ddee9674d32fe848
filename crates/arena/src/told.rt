// What a request hands out: what it tells or why it is refused, the accesses that it took, and all it says as numbers.
ghost use Rattle.std.specs.Prelude.{◌≡◌, ◌∷◌, Err};
ghost use Rattle.meaning.specs.Answers.{Answer};
ghost use Rattle.terms.specs.Answers.{as_answer, is_done, tells_block, tells_figures, tells_offset, tells_verdict};
ghost use Rattle.arena.specs.Numbers.{numbers_in};

use terms::{Block, Figures, Refusal};

// What a granted request tells, as document 01's three values.
pub trait Tells: Copy {
    ghost told: { Self → Answer };

    fn values(self) -> [u64; 3]
        ensures { 0 ∷ result ≡ numbers_in (told self) };
}

// Start and give back: nothing.
impl Tells for () {
    ghost told = { is_done };

    fn values(self) -> [u64; 3] {
        [0, 0, 0]
    }
}

// Take: an offset.
impl Tells for u64 {
    ghost told = { tells_offset };

    fn values(self) -> [u64; 3] {
        [self, 0, 0]
    }
}

// Which: a start and a size.
impl Tells for Block {
    ghost told = { tells_block };

    fn values(self) -> [u64; 3] {
        [self.start, self.size, 0]
    }
}

// Figures: bytes live, bytes held and the room.
impl Tells for Figures {
    ghost told = { tells_figures };

    fn values(self) -> [u64; 3] {
        [self.live, self.held, self.room]
    }
}

// Check-up: 1 where the table is sound, else 0.
impl Tells for bool {
    ghost told = { tells_verdict };

    fn values(self) -> [u64; 3] {
        [self as u64, 0, 0]
    }
}

// What a request tells or why it is refused, and the accesses to the table that it took.
#[derive(Clone, Copy)]
pub struct Counted<T> {
    pub answer: Result<T, Refusal>,
    pub spent: u64,
}

impl<T> Counted<T> {
    // A refusal that took no access.
    pub fn refused(why: Refusal) -> Counted<T>
        ensures refusal { result.answer ≡ Err why }
        ensures none_spent { result.spent ≡ 0 }
    {
        Counted {
            answer: Err(why),
            spent: 0,
        }
    }
}

impl<T: Tells> Counted<T> {
    // The refusal number, or 0, and the three values.
    pub fn numbers(self) -> [u64; 4]
        ensures { result ≡ numbers_in (as_answer T.told self.answer) }
    {
        match self.answer {
            Ok(told) => {
                let [first, second, third] = told.values();
                [0, first, second, third]
            }
            Err(why) => [why.number(), 0, 0, 0],
        }
    }
}
