// Check-up (document 01, section 3), on a table of exactly the cells needed: the local tests of docs/TABLE.md, level by level.
#![tactic(auto)]

ghost use Rattle.std.specs.Prelude.{◌≡◌, ◌*◌, ◌+◌, ◌-◌, ◌<◌, ◌≤◌, ◌^◌};
ghost use Rattle.meaning.specs.Blocks.{m_most};
ghost use Rattle.table.specs.Local.{leaf_sound, node_sound, sound_at};
ghost use Rattle.walks.specs.Books.{IsKept, cells_of, spent_of};
ghost use Rattle.check_up.specs.Checked.{Checked, LevelChecked};

use cells::{Tag, all_open, join, page_cell, tag_of, vacant_cell, whole_cell};
use walks::{Shown, map_of};

// The test of a leaf: its cell and its bitmap.
#[tactic(auto, unfolding(table::specs::Local::leaf_sound, table::specs::Local::cut_sound))]
fn leaf_sound(cell: u64, bits: u64) -> bool
    ensures { result ≡ leaf_sound cell bits }
{
    if cell == vacant_cell(0) {
        return bits == 0;
    }
    if cell == whole_cell() {
        return bits == 0;
    }
    match tag_of(cell) {
        Some(Tag::Page(size)) => bits < all_open(size.slots()) && cell == page_cell(size, bits),
        _ => false,
    }
}

// The test of a node over two halves of height h: its cell and theirs.
#[tactic(auto, unfolding(table::specs::Local::node_sound))]
fn node_sound(h: u64, cell: u64, left: u64, right: u64) -> bool
    requires { h ≤ m_most }
    ensures { result ≡ node_sound h cell left right }
{
    let vacant = vacant_cell(h);
    cell == join(left, right, h) || cell == whole_cell() && left == vacant && right == vacant
}

// The test of the node v of height h.
fn sound_at(book: &mut Shown<'_>, h: u64, v: usize) -> bool
    requires h_in_range { h ≤ book.old.arena.m }
    requires v_below { v < 2 * 2 ^ (book.old.arena.m - h) }
    requires few_spent { spent_of book.old < 2 ^ 31 }
    ensures kept { IsKept book.old book.new }
    ensures verdict { result ≡ sound_at (cells_of book.old) (2 ^ book.old.arena.m) h v }
    ensures cost { spent_of book.new ≤ spent_of book.old + 3 }
    ensures cost_leaf { h ≡ 0 → spent_of book.new ≤ spent_of book.old + 2 }
{
    let cell = book.get(v);
    if h == 0 {
        let bits = book.get(map_of(book.arena, v));
        leaf_sound(cell, bits)
    } else {
        let left = book.get(2 * v);
        let right = book.get(2 * v + 1);
        node_sound(h - 1, cell, left, right)
    }
}

// The tests of all nodes of height h.
fn level_sound(book: &mut Shown<'_>, h: u64) -> bool
    requires h_in_range { h ≤ book.old.arena.m }
    requires few_spent { spent_of book.old < 2 ^ 30 }
    ensures kept { IsKept book.old book.new }
    ensures verdict { let first = 2 ^ (book.old.arena.m - h) in LevelChecked (cells_of book.old) (2 ^ book.old.arena.m) h first (2 * first) result }
    ensures cost { spent_of book.new ≤ spent_of book.old + 3 * 2 ^ (book.old.arena.m - h) }
    ensures cost_leaves { h ≡ 0 → spent_of book.new ≤ spent_of book.old + 2 * 2 ^ (book.old.arena.m - h) }
{
    for v in book.arena.level(h) {
        if !sound_at(book, h, v) {
            return false;
        }
    }
    true
}

// Whether the table is sound.
pub fn check_table(book: &mut Shown<'_>) -> bool
    requires few_spent { spent_of book.old < 2 ^ 20 }
    ensures kept { IsKept book.old book.new }
    ensures verdict { Checked book.old.arena.m (cells_of book.old) result }
    ensures cost { spent_of book.new + 2 ≤ spent_of book.old + 5 * 2 ^ book.old.arena.m }
{
    if book.get(0) != 0 {
        return false;
    }
    for h in 0..=book.arena.m {
        if !level_sound(book, h) {
            return false;
        }
    }
    true
}
