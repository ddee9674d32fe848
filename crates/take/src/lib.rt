// Take (document 01, section 3), on the table of an arena and with good arguments.
#![tactic(auto)]

ghost use Rattle.std.specs.Prelude.{◌≡◌, true, ◌*◌, ◌+◌, ◌-◌, ◌<◌, ◌≤◌, ◌^◌, MatchOption, get_or};
ghost use Rattle.meaning.specs.Blocks.{arena, page_bytes, small};
ghost use Rattle.meaning.specs.Answers.{fresh_place, large_place, place, served_place, size_given, small_place};
ghost use Rattle.cells.specs.Cell.{has_room_for, has_size};
ghost use Rattle.terms.specs.Answers.{as_answer, tells_offset};
ghost use Rattle.walks.specs.Books.{IsSameBook, cells_of, spent_of};
ghost use Rattle.take.specs.Took.{Took};
ghost use Rattle.take.specs.Offered.{Offers, OffersNone};

use cells::{
    Tag, all_open, has_room_for, has_size, lowest, page_cell, tag_of, vacant_cell, whole_cell,
    without,
};
use terms::{Refusal, SMALL_MOST, Size};
use walks::{Wanted, Written, map_of};

// The lowest run of 2^k free pages that starts at a multiple of 2^k.
pub fn take_run(book: &mut Written<'_>, k: u64) -> Result<u64, Refusal>
    requires k_in_range { k ≤ book.old.arena.m }
    requires few_spent { spent_of book.old < 2 ^ 20 }
    ensures same_book { IsSameBook book.old book.new }
    ensures took { let m = book.old.arena.m in Took m (3 * (m - k) + 3) (page_bytes * 2 ^ k) (λ L. large_place m L k) (cells_of book.old) (cells_of book.new) (as_answer tells_offset result) (spent_of book.old) (spent_of book.new) }
{
    if !has_room_for(book.get(1), k) {
        return Err(Refusal::NoRoom);
    }
    let v = book.down(book.arena.m - k, Wanted::Run(k));
    if book.get(v) != vacant_cell(k) {
        return Err(Refusal::NoRoom);
    }
    book.put_node(v, k, whole_cell());
    Ok(book.arena.run_offset(k, v))
}

// The lowest slot that is not live, in a page of this cell and bitmap, if the page serves the size.
fn slot_offered(size: Size, cell: u64, bits: u64) -> Option<u64>
    ensures { MatchOption result (OffersNone size.number cell bits) (Offers size.number cell bits) }
{
    match tag_of(cell) {
        Some(Tag::Page(served)) if served == size && bits != 0 => {
            Some(lowest(bits)).filter(|i| *i < size.slots())
        }
        _ => None,
    }
}

// The lowest slot that is not live in a page that serves the size, where the root says that there is one.
fn take_served(book: &mut Written<'_>, size: Size) -> Result<u64, Refusal>
    requires page_there { has_size size.number (get_or (cells_of book.old) 1 0) ≡ true }
    requires few_spent { spent_of book.old < 2 ^ 21 }
    ensures same_book { IsSameBook book.old book.new }
    ensures took { let m = book.old.arena.m in Took m (3 * m + 4) (small size.number) (λ L. served_place m L size.number) (cells_of book.old) (cells_of book.new) (as_answer tells_offset result) (spent_of book.old) (spent_of book.new) }
{
    let w = book.down(book.arena.m, Wanted::Slot(size.number));
    let cell = book.get(w);
    let bits = book.get(map_of(book.arena, w));
    let i = slot_offered(size, cell, bits).ok_or(Refusal::NoRoom)?;
    let rest = without(bits, i);
    book.put_leaf(w, page_cell(size, rest), rest);
    Ok(book.arena.slot_offset(size, w, i))
}

// The first slot of the lowest free page, where the root says that there is one; the page serves the size from now on.
fn take_fresh(book: &mut Written<'_>, size: Size) -> Result<u64, Refusal>
    requires page_there { has_room_for 0 (get_or (cells_of book.old) 1 0) ≡ true }
    requires few_spent { spent_of book.old < 2 ^ 21 }
    ensures same_book { IsSameBook book.old book.new }
    ensures took { let m = book.old.arena.m in Took m (3 * m + 3) (small size.number) (λ L. fresh_place m L size.number) (cells_of book.old) (cells_of book.new) (as_answer tells_offset result) (spent_of book.old) (spent_of book.new) }
{
    let w = book.down(book.arena.m, Wanted::Run(0));
    if book.get(w) != vacant_cell(0) {
        return Err(Refusal::NoRoom);
    }
    let rest = all_open(size.slots()) - 1;
    book.put_leaf(w, page_cell(size, rest), rest);
    Ok(book.arena.slot_offset(size, w, 0))
}

// A block of a small size.
pub fn take_slot(book: &mut Written<'_>, size: Size) -> Result<u64, Refusal>
    requires few_spent { spent_of book.old < 2 ^ 20 }
    ensures same_book { IsSameBook book.old book.new }
    ensures took { let m = book.old.arena.m in Took m (3 * m + 5) (small size.number) (λ L. small_place m L size.number) (cells_of book.old) (cells_of book.new) (as_answer tells_offset result) (spent_of book.old) (spent_of book.new) }
{
    let root = book.get(1);
    if has_size(root, size.number) {
        take_served(book, size)
    } else if has_room_for(root, 0) {
        take_fresh(book, size)
    } else {
        Err(Refusal::NoRoom)
    }
}

// A block for n bytes.
pub fn take_block(book: &mut Written<'_>, n: u64) -> Result<u64, Refusal>
    requires n_in_arena { n ≤ arena book.old.arena.m }
    requires few_spent { spent_of book.old < 2 ^ 20 }
    ensures same_book { IsSameBook book.old book.new }
    ensures took { let m = book.old.arena.m in Took m (3 * m + 5) (size_given m n) (λ L. place m L n) (cells_of book.old) (cells_of book.new) (as_answer tells_offset result) (spent_of book.old) (spent_of book.new) }
{
    if n <= SMALL_MOST {
        take_slot(book, Size::least_for(n))
    } else {
        take_run(book, book.arena.k_for(n))
    }
}
