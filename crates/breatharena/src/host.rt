// The host: the table that it lends, and what it keeps from line to line beside it, numbers alone, and nothing of what the requests answered.
ghost use Rattle.std.specs.Prelude.{◌≤◌};

use crate::answer::{Answer, Expected};
use script::Line;

// The cells of the longest table that is lent: three for each page of an arena of 2^12 pages.
const TABLE_CELLS: usize = 12288;

// What a cell holds before the first start.
const GARBAGE: u64 = 0xA5A5_A5A5_A5A5_A5A5;

// The bits of a cell.
const CELL_BITS: u64 = 64;

// The host of one arena at a time.
#[derive(Drop)]
pub struct Host {
    table: [u64; TABLE_CELLS],
    // The arena has 2^m pages.
    m: u64,
    // Whether the table is lent one cell too short.
    is_short: bool,
    // The most accesses that one request of each kind has made since the player began.
    take_cost: u64,
    give_cost: u64,
    which_cost: u64,
}

// How many cells are lent: those that m needs, one less where short; all where m is refused.
fn cells_lent(m: u64, is_short: bool) -> usize
    ensures { result ≤ 12288 }
{
    match arena::table_cells(m) {
        0 => TABLE_CELLS,
        needed => needed.min(TABLE_CELLS) - usize::from(is_short),
    }
}

impl Host {
    // Before the first line: m is 0.
    pub(crate) fn new() -> Self {
        Self {
            table: [GARBAGE; TABLE_CELLS],
            m: 0,
            is_short: false,
            take_cost: 0,
            give_cost: 0,
            which_cost: 0,
        }
    }

    // Plays a line: what it answers, if anything.
    pub(crate) fn play(&mut self, line: Line) -> Result<Option<Answer>, Expected> {
        let answer = match line {
            Line::Blank => None,
            Line::Arena(m) => {
                self.enter(m);
                None
            }
            Line::TableShort => {
                self.is_short = true;
                None
            }
            Line::TableWhole => {
                self.is_short = false;
                None
            }
            Line::Start => Some(self.start()),
            Line::Take(bytes) => Some(self.take(bytes)),
            Line::Give(offset) => Some(self.give_back(offset)),
            Line::Which(offset) => Some(self.which(offset)),
            Line::Figures => Some(self.figures()),
            Line::CheckUp => Some(self.check_up()),
            Line::Flip { cell, bit } => {
                self.flip(cell, bit)?;
                None
            }
            Line::Cost => Some(self.cost()),
        };
        Ok(answer)
    }

    // The lent part of the table.
    fn lent(&mut self) -> &mut [u64] {
        let cells = cells_lent(self.m, self.is_short);
        &mut self.table[..cells]
    }

    // `arena M`: all cells that m needs hold garbage until the next start, also where one of them is not lent. A table lent
    // short stays short, and the costs go on.
    fn enter(&mut self, m: u64) {
        self.m = m;
        for cell in &mut self.table[..cells_lent(m, false)] {
            *cell = GARBAGE;
        }
    }

    // `start`.
    fn start(&mut self) -> Answer {
        let m = self.m;
        let counted = arena::start(self.lent(), m);
        Answer::of(counted.answer, |_| Answer::Done)
    }

    // `take N`.
    fn take(&mut self, bytes: u64) -> Answer {
        let m = self.m;
        let counted = arena::take(self.lent(), m, bytes);
        self.take_cost = self.take_cost.max(counted.spent);
        Answer::of(counted.answer, |start| Answer::Offset(start))
    }

    // `give N`: give back the block at an offset.
    fn give_back(&mut self, offset: u64) -> Answer {
        let m = self.m;
        let counted = arena::give_back(self.lent(), m, offset);
        self.give_cost = self.give_cost.max(counted.spent);
        Answer::of(counted.answer, |_| Answer::Done)
    }

    // `which N`.
    fn which(&mut self, offset: u64) -> Answer {
        let m = self.m;
        let counted = arena::which(self.lent(), m, offset);
        self.which_cost = self.which_cost.max(counted.spent);
        Answer::of(
            counted.answer,
            |block| Answer::Block {
                start: block.start,
                size: block.size,
            },
        )
    }

    // `figures`.
    fn figures(&mut self) -> Answer {
        let m = self.m;
        let counted = arena::figures(self.lent(), m);
        Answer::of(
            counted.answer,
            |figures| Answer::Figures {
                live: figures.live,
                held: figures.held,
                room: figures.room,
            },
        )
    }

    // `checkup`.
    fn check_up(&mut self) -> Answer {
        let m = self.m;
        let counted = arena::check_up(self.lent(), m);
        Answer::of(
            counted.answer,
            |is_sound| if is_sound {
                Answer::Sound
            } else {
                Answer::Unsound
            },
        )
    }

    // `flip CELL BIT`: a fault in the lent table.
    fn flip(&mut self, cell: u64, bit: u64) -> Result<(), Expected> {
        let lent = self.lent();
        if cell < lent.len() as u64 && bit < CELL_BITS {
            lent[cell as usize] ^= 1 << bit;
            return Ok(());
        }
        Err(Expected::Bit)
    }

    // `cost`.
    fn cost(&self) -> Answer {
        Answer::Cost {
            take: self.take_cost,
            give: self.give_cost,
            which: self.which_cost,
        }
    }
}
