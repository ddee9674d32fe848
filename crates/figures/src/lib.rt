// Figures (document 01, section 3), on a table of exactly the cells needed: a pass over all nodes, level by level.
#![tactic(auto)]

ghost use Rattle.std.specs.Prelude.{◌≡◌, ◌*◌, ◌+◌, ◌-◌, ◌<◌, ◌≤◌, ◌^◌};
ghost use Rattle.meaning.specs.Blocks.{slots, small};
ghost use Rattle.meaning.specs.Bytes.{total};
ghost use Rattle.cells.specs.Cell.{open_count};
ghost use Rattle.trees.specs.Sums.{room_bytes};
ghost use Rattle.table.specs.Table.{need};
ghost use Rattle.table.specs.Sums.{levels_sum, node_held, node_live};
ghost use Rattle.terms.specs.Answers.{tells_figures};
ghost use Rattle.walks.specs.Books.{IsKept, cells_of, spent_of};
ghost use Rattle.figures.specs.Summed.{Summed};

use cells::{Tag, count_open, room_of, tag_of};
use std::ops::AddAssign;
use terms::{Arena, Figures, PAGE_BYTES, Size, run_bytes};
use walks::{Shown, map_of};

// Bytes live, and pages held.
#[derive(Clone, Copy, Default)]
struct Sums {
    live: u64,
    held: u64,
}

// Each number adds to its own, where both sums fit.
impl AddAssign for Sums {
    ghost can_add_assign = { λ sums more. (sums.live + more.live < 2 ^ 64) × (sums.held + more.held < 2 ^ 64) };

    ghost add_assign_gives = { λ sums more all. (all.live ≡ sums.live + more.live) × (all.held ≡ sums.held + more.held) };

    fn add_assign(&mut self, more: Sums) {
        self.live += more.live;
        self.held += more.held;
    }
}

// The bytes of the live slots of a page that serves a size. (A bitmap of an unsound table may have more digits than there are slots.)
#[tactic(auto, using(crate::proofs::Nodes::page_live_le))]
fn page_live(size: Size, bits: u64) -> u64
    ensures { result ≡ small size.number * (slots size.number - open_count bits) }
{
    size.bytes() * size.slots().saturating_sub(count_open(bits))
}

// What the node v of height h adds.
fn node_sums(book: &mut Shown<'_>, h: u64, v: usize) -> Sums
    requires h_in_range { h ≤ book.old.arena.m }
    requires v_below { v < 2 * 2 ^ (book.old.arena.m - h) }
    requires few_spent { spent_of book.old < 2 ^ 31 }
    ensures kept { IsKept book.old book.new }
    ensures live { result.live ≡ node_live (cells_of book.old) (2 ^ book.old.arena.m) h v }
    ensures held { result.held ≡ node_held (cells_of book.old) h v }
    ensures cost { spent_of book.new ≤ spent_of book.old + 1 + (1 - h) }
{
    match tag_of(book.get(v)) {
        Some(Tag::Whole) => {
            let live = run_bytes(h);
            Sums {
                live,
                held: live / PAGE_BYTES,
            }
        }
        Some(Tag::Page(size)) if h == 0 => {
            let bits = book.get(map_of(book.arena, v));
            Sums {
                live: page_live(size, bits),
                held: 1,
            }
        }
        _ => Sums::default(),
    }
}

// What the nodes of height h add.
#[tactic(auto, using(crate::proofs::Levels::level_start, crate::proofs::Levels::level_next))]
fn level_sums(book: &mut Shown<'_>, h: u64) -> Sums
    requires h_in_range { h ≤ book.old.arena.m }
    requires few_spent { spent_of book.old < 2 ^ 30 }
    ensures kept { IsKept book.old book.new }
    ensures live { let first = 2 ^ (book.old.arena.m - h) in result.live ≡ total (node_live (cells_of book.old) (2 ^ book.old.arena.m) h) first first }
    ensures held { let first = 2 ^ (book.old.arena.m - h) in result.held ≡ total (node_held (cells_of book.old) h) first first }
    ensures cost { spent_of book.new ≤ spent_of book.old + 2 * 2 ^ (book.old.arena.m - h) }
    ensures cost_above { 0 < h → spent_of book.new ≤ spent_of book.old + 2 ^ (book.old.arena.m - h) }
{
    let mut sums = Sums::default();
    for v in book.arena.level(h) {
        sums += node_sums(book, h, v);
    }
    sums
}

// What all nodes add.
#[tactic(auto, using(table::proofs::LevelSums::levels_sum_none, crate::proofs::Levels::levels_next_power))]
fn all_sums(book: &mut Shown<'_>) -> Sums
    requires few_spent { spent_of book.old < 2 ^ 20 }
    ensures kept { IsKept book.old book.new }
    ensures live { result.live ≡ levels_sum (node_live (cells_of book.old) (2 ^ book.old.arena.m)) book.old.arena.m (book.old.arena.m + 1) }
    ensures held { result.held ≡ levels_sum (node_held (cells_of book.old)) book.old.arena.m (book.old.arena.m + 1) }
    ensures few { result.held ≤ 2 ^ book.old.arena.m * (book.old.arena.m + 1) }
    ensures cost { spent_of book.new < spent_of book.old + 3 * 2 ^ book.old.arena.m }
{
    let mut sums = Sums::default();
    for h in 0..=book.arena.m {
        sums += level_sums(book, h);
    }
    sums
}

// The size of the largest block that the root's room says. (The room of an unsound table may be more than the arena has.)
#[tactic(auto, unfolding(trees::specs::Sums::room_bytes))]
fn room_bytes(arena: Arena, room: u64) -> u64
    ensures { room ≤ arena.m + 1 → result ≡ room_bytes room }
{
    match room.checked_sub(1) {
        Some(k) if k <= arena.m => run_bytes(k),
        _ => 0,
    }
}

// Bytes live, bytes held, and the room.
pub fn sum_table(book: &mut Shown<'_>) -> Figures
    requires few_spent { spent_of book.old < 2 ^ 20 }
    ensures kept { IsKept book.old book.new }
    ensures summed { Summed book.old.arena.m (need book.old.arena.m) (cells_of book.old) (tells_figures result) (spent_of book.old) (spent_of book.new) }
{
    let sums = all_sums(book);
    let root = book.get(1);
    Figures {
        live: sums.live,
        held: PAGE_BYTES * sums.held,
        room: room_bytes(book.arena, room_of(root)),
    }
}
