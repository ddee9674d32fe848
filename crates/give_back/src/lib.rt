// Give back (document 01, section 3), on the book of an arena and at an offset of it.
#![tactic(auto)]

ghost use Rattle.std.specs.Prelude.{◌≡◌, cond, ◌*◌, ◌+◌, ◌-◌, ◌/◌, ◌<◌, ◌≤◌, ◌^◌, suc, eqb, get_or};
ghost use Rattle.meaning.specs.Blocks.{arena, page_bytes, slots};
ghost use Rattle.digits.specs.Digits.{ones};
ghost use Rattle.terms.specs.Answers.{as_answer, is_done};
ghost use Rattle.cells.specs.Cell.{packed, tag_in, whole_tag};
ghost use Rattle.table.specs.Walks.{above, located};
ghost use Rattle.walks.specs.Books.{IsSameBook, cells_of, spent_of};
ghost use Rattle.give_back.specs.Gave.{Gave};

use cells::{Tag, all_open, is_open, page_cell, vacant_cell, with_slot};
use terms::{PAGE_BYTES, Refusal, Size};
use walks::{Written, map_of, node_above};

// The large block of the node h levels above the leaf of the byte o, which has that tag, is free from now on if it starts at o.
fn give_run(book: &mut Written<'_>, o: u64, h: u64) -> Result<(), Refusal>
    requires o_in_arena { o < arena book.old.arena.m }
    requires h_in_range { h ≤ book.old.arena.m }
    requires located_at { h ≡ located (suc book.old.arena.m) (cells_of book.old) (2 ^ book.old.arena.m + o / page_bytes) 0 }
    requires block_tag { tag_in (get_or (cells_of book.old) (above h (2 ^ book.old.arena.m + o / page_bytes)) 0) ≡ whole_tag }
    requires few_spent { spent_of book.old < 2 ^ 21 }
    ensures same_book { IsSameBook book.old book.new }
    ensures gave { let m = book.old.arena.m in Gave m (2 * (m - h) + 1) o (cells_of book.old) (cells_of book.new) (as_answer is_done result) (spent_of book.old) (spent_of book.new) }
{
    let v = node_above(book.arena.leaf_at(o), h);
    if o != book.arena.run_offset(h, v) {
        return Err(Refusal::NotLive);
    }
    book.put_node(v, h, vacant_cell(h));
    Ok(())
}

// A page's cell and its bitmap.
#[derive(Clone, Copy)]
struct Page {
    cell: u64,
    bits: u64,
}

// A page of a size once these slots are not live: where none is live any more, the page is free, and its bitmap is 0.
fn page_left(size: Size, bits: u64) -> Page
    ensures cell { result.cell ≡ cond (eqb bits (ones (slots size.number))) 1 (packed 0 (size.number + 1) (cond (eqb bits 0) 0 (2 ^ size.number))) }
    ensures bitmap { result.bits ≡ cond (eqb bits (ones (slots size.number))) 0 bits }
{
    if bits == all_open(size.slots()) {
        Page {
            cell: vacant_cell(0),
            bits: 0,
        }
    } else {
        Page {
            cell: page_cell(size, bits),
            bits,
        }
    }
}

// The slot that starts at o is not live from now on, if there is one and it is live; its page serves that size.
fn give_slot(book: &mut Written<'_>, o: u64, size: Size) -> Result<(), Refusal>
    requires o_in_arena { o < arena book.old.arena.m }
    requires located_at { 0 ≡ located (suc book.old.arena.m) (cells_of book.old) (2 ^ book.old.arena.m + o / page_bytes) 0 }
    requires page_tag { tag_in (get_or (cells_of book.old) (2 ^ book.old.arena.m + o / page_bytes) 0) ≡ size.number + 1 }
    requires few_spent { spent_of book.old < 2 ^ 21 }
    ensures same_book { IsSameBook book.old book.new }
    ensures gave { let m = book.old.arena.m in Gave m (2 * m + 3) o (cells_of book.old) (cells_of book.new) (as_answer is_done result) (spent_of book.old) (spent_of book.new) }
{
    let bytes = size.bytes();
    let within = o % PAGE_BYTES;
    let i = within / bytes;
    if within % bytes != 0 {
        return Err(Refusal::NotLive);
    }
    if size.slots() <= i {
        return Err(Refusal::NotLive);
    }
    let leaf = book.arena.leaf_at(o);
    let bits = book.get(map_of(book.arena, leaf));
    if is_open(bits, i) {
        return Err(Refusal::NotLive);
    }
    let left = page_left(size, with_slot(bits, i));
    book.put_leaf(leaf, left.cell, left.bits);
    Ok(())
}

// The block that starts exactly at o is no longer live.
pub fn give_block(book: &mut Written<'_>, o: u64) -> Result<(), Refusal>
    requires o_in_arena { o < arena book.old.arena.m }
    requires few_spent { spent_of book.old < 2 ^ 20 }
    ensures same_book { IsSameBook book.old book.new }
    ensures gave { let m = book.old.arena.m in Gave m (2 * m + 4) o (cells_of book.old) (cells_of book.new) (as_answer is_done result) (spent_of book.old) (spent_of book.new) }
{
    let leaf = book.arena.leaf_at(o);
    let Some(found) = book.locate(leaf) else {
        return Err(Refusal::NotLive);
    };
    match found.tag {
        Tag::Whole => give_run(book, o, found.height),
        Tag::Page(size) if found.height == 0 => give_slot(book, o, size),
        _ => Err(Refusal::NotLive),
    }
}
