// The six requests of document 01, on a table that the caller lends. No request asks anything of its caller: any numbers and any table may come in.
#![tactic(auto)]

ghost use Rattle.std.specs.Prelude.{◌≡◌, cond, ◌*◌, ◌+◌, ◌-◌, ◌^◌, ◌≤◌, max, ltb};
ghost use Rattle.meaning.specs.Blocks.{m_most};
ghost use Rattle.meaning.specs.Answers.{bad_argument, check_up as ask_check_up, figures as ask_figures, give_back as ask_give_back, start as ask_start, take as ask_take, which as ask_which};
ghost use Rattle.terms.specs.Answers.{as_answer, is_done, tells_block, tells_figures, tells_offset, tells_verdict};
ghost use Rattle.table.specs.Table.{need};
ghost use Rattle.arena.specs.Promises.{Exact, InOrder, Kept, RefusalAlone, Right, Started, TakenInside, ToldInside};
ghost use Rattle.arena.specs.Admits.{Admits};

mod told;

use check_up::check_table;
use figures::sum_table;
use give_back::give_block;
use start::start_table;
use take::take_block;
use terms::{Arena, Block, Figures, Refusal};
pub use told::{Counted, Tells};
use walks::Book;
use which::tell_block;

// The cells that a table for m needs; 0 where m is too large.
pub fn table_cells(m: u64) -> usize
    ensures { result ≡ cond (ltb m_most m) 0 (need m) }
{
    match Arena::new(m) {
        Ok(arena) => arena.cells(),
        Err(_) => 0,
    }
}

// The arena of m, or the refusals that every request tries first: m is too large, the table is too short.
fn admit(m: u64, cells: usize) -> Result<Arena, Refusal>
    ensures { Admits m cells 0 result }
{
    let arena = Arena::new(m)?;
    if cells < arena.cells() {
        return Err(Refusal::ShortTable);
    }
    Ok(arena)
}

// The same, and then the refusals of a size.
fn admit_size(m: u64, cells: usize, n: u64) -> Result<Arena, Refusal>
    ensures { Admits m cells (bad_argument m (ask_take n)) result }
{
    let arena = admit(m, cells)?;
    if n == 0 {
        return Err(Refusal::NoBytes);
    }
    if arena.bytes() < n {
        return Err(Refusal::BeyondArena);
    }
    Ok(arena)
}

// The same, and then the refusal of an offset.
fn admit_offset(m: u64, cells: usize, o: u64) -> Result<Arena, Refusal>
    ensures { Admits m cells (bad_argument m (ask_which o)) result }
{
    let arena = admit(m, cells)?;
    if arena.bytes() <= o {
        return Err(Refusal::NotLive);
    }
    Ok(arena)
}

// Start: the table now stands for an arena with no live block, whatever it held.
pub fn start(t: &mut [u64], m: u64) -> Counted<()>
    ensures in_order { InOrder m ask_start t.old (as_answer is_done result.answer) }
    ensures refusal_changes_nothing { RefusalAlone t.old t.new (as_answer is_done result.answer) }
    ensures stays_inside { Kept m t.old t.new }
    ensures ends_within { result.spent ≤ need m }
    ensures right { Started m t.old t.new (as_answer is_done result.answer) }
{
    match admit(m, t.len()) {
        Ok(arena) => {
            let (cells, _) = t.split_at_mut(arena.cells());
            let mut book = Book::over(cells, arena);
            start_table(&mut book);
            Counted {
                answer: Ok(()),
                spent: book.spent(),
            }
        }
        Err(why) => Counted::refused(why),
    }
}

// Take: a block for n bytes; its offset is told.
pub fn take(t: &mut [u64], m: u64, n: u64) -> Counted<u64>
    ensures in_order { InOrder m (ask_take n) t.old (as_answer tells_offset result.answer) }
    ensures refusal_changes_nothing { RefusalAlone t.old t.new (as_answer tells_offset result.answer) }
    ensures stays_inside { Kept m t.old t.new × TakenInside m n (as_answer tells_offset result.answer) }
    ensures ends_within { result.spent ≤ 3 * (m + 1) + 2 }
    ensures right { Right m (ask_take n) t.old t.new (as_answer tells_offset result.answer) }
{
    match admit_size(m, t.len(), n) {
        Ok(arena) => {
            let (cells, _) = t.split_at_mut(arena.cells());
            let mut book = Book::over(cells, arena);
            let answer = take_block(&mut book, n);
            Counted {
                answer,
                spent: book.spent(),
            }
        }
        Err(why) => Counted::refused(why),
    }
}

// Give back: the block that starts exactly at o is no longer live.
pub fn give_back(t: &mut [u64], m: u64, o: u64) -> Counted<()>
    ensures in_order { InOrder m (ask_give_back o) t.old (as_answer is_done result.answer) }
    ensures refusal_changes_nothing { RefusalAlone t.old t.new (as_answer is_done result.answer) }
    ensures stays_inside { Kept m t.old t.new }
    ensures ends_within { result.spent ≤ 2 * (m + 1) + 2 }
    ensures right { Right m (ask_give_back o) t.old t.new (as_answer is_done result.answer) }
{
    match admit_offset(m, t.len(), o) {
        Ok(arena) => {
            let (cells, _) = t.split_at_mut(arena.cells());
            let mut book = Book::over(cells, arena);
            let answer = give_block(&mut book, o);
            Counted {
                answer,
                spent: book.spent(),
            }
        }
        Err(why) => Counted::refused(why),
    }
}

// Which: the live block that holds the byte o is told.
pub fn which(t: &[u64], m: u64, o: u64) -> Counted<Block>
    ensures in_order { InOrder m (ask_which o) t.now (as_answer tells_block result.answer) }
    ensures refusal_alone { RefusalAlone t.now t.now (as_answer tells_block result.answer) }
    ensures stays_inside { ToldInside m o (as_answer tells_block result.answer) }
    ensures ends_within { result.spent ≤ 1 + max 1 m }
    ensures right { Right m (ask_which o) t.now t.now (as_answer tells_block result.answer) }
{
    match admit_offset(m, t.len(), o) {
        Ok(arena) => {
            let mut book = Book::new(&t[..arena.cells()], arena);
            let answer = tell_block(&mut book, o);
            Counted {
                answer,
                spent: book.spent(),
            }
        }
        Err(why) => Counted::refused(why),
    }
}

// Figures: bytes live, bytes held and the room are told.
pub fn figures(t: &[u64], m: u64) -> Counted<Figures>
    ensures in_order { InOrder m ask_figures t.now (as_answer tells_figures result.answer) }
    ensures refusal_alone { RefusalAlone t.now t.now (as_answer tells_figures result.answer) }
    ensures ends_within { result.spent ≤ need m }
    ensures right { Right m ask_figures t.now t.now (as_answer tells_figures result.answer) }
{
    match admit(m, t.len()) {
        Ok(arena) => {
            let mut book = Book::new(&t[..arena.cells()], arena);
            let figures = sum_table(&mut book);
            Counted {
                answer: Ok(figures),
                spent: book.spent(),
            }
        }
        Err(why) => Counted::refused(why),
    }
}

// Check-up: whether the table is sound.
pub fn check_up(t: &[u64], m: u64) -> Counted<bool>
    ensures in_order { InOrder m ask_check_up t.now (as_answer tells_verdict result.answer) }
    ensures refusal_alone { RefusalAlone t.now t.now (as_answer tells_verdict result.answer) }
    ensures ends_within { result.spent ≤ 5 * 2 ^ m - 2 }
    ensures exact { Exact m t.now (as_answer tells_verdict result.answer) }
{
    match admit(m, t.len()) {
        Ok(arena) => {
            let mut book = Book::new(&t[..arena.cells()], arena);
            let sound = check_table(&mut book);
            Counted {
                answer: Ok(sound),
                spent: book.spent(),
            }
        }
        Err(why) => Counted::refused(why),
    }
}
