// Which (document 01, section 3), on the book of an arena and at an offset of it.
#![tactic(auto)]

ghost use Rattle.std.specs.Prelude.{◌≡◌, ◌*◌, ◌+◌, ◌-◌, ◌/◌, ◌<◌, ◌≤◌, ◌^◌, max, suc, get_or};
ghost use Rattle.meaning.specs.Blocks.{arena, page_bytes};
ghost use Rattle.terms.specs.Answers.{as_answer, tells_block};
ghost use Rattle.cells.specs.Cell.{tag_in};
ghost use Rattle.table.specs.Walks.{located};
ghost use Rattle.walks.specs.Books.{IsKept, cells_of, spent_of};
ghost use Rattle.which.specs.Told.{Told};

use cells::{Tag, is_open};
use terms::{Block, PAGE_BYTES, Refusal, Size, run_bytes};
use walks::{Shown, map_of, node_above};

// The slot that holds the byte o, if there is one and it is live; its page serves that size.
fn tell_slot(book: &mut Shown<'_>, o: u64, size: Size) -> Result<Block, Refusal>
    requires o_in_arena { o < arena book.old.arena.m }
    requires located_at { 0 ≡ located (suc book.old.arena.m) (cells_of book.old) (2 ^ book.old.arena.m + o / page_bytes) 0 }
    requires page_tag { tag_in (get_or (cells_of book.old) (2 ^ book.old.arena.m + o / page_bytes) 0) ≡ size.number + 1 }
    requires few_spent { spent_of book.old < 2 ^ 21 }
    ensures kept { IsKept book.old book.new }
    ensures told { Told book.old.arena.m 1 o (cells_of book.old) (as_answer tells_block result) (spent_of book.old) (spent_of book.new) }
{
    let bytes = size.bytes();
    let i = o % PAGE_BYTES / bytes;
    if size.slots() <= i {
        return Err(Refusal::NotLive);
    }
    let leaf = book.arena.leaf_at(o);
    let bits = book.get(map_of(book.arena, leaf));
    if is_open(bits, i) {
        return Err(Refusal::NotLive);
    }
    Ok(Block {
        start: book.arena.slot_offset(size, leaf, i),
        size: bytes,
    })
}

// The live block that holds the byte o.
pub fn tell_block(book: &mut Shown<'_>, o: u64) -> Result<Block, Refusal>
    requires o_in_arena { o < arena book.old.arena.m }
    requires few_spent { spent_of book.old < 2 ^ 20 }
    ensures kept { IsKept book.old book.new }
    ensures told { let m = book.old.arena.m in Told m (1 + max 1 m) o (cells_of book.old) (as_answer tells_block result) (spent_of book.old) (spent_of book.new) }
{
    let leaf = book.arena.leaf_at(o);
    let Some(found) = book.locate(leaf) else {
        return Err(Refusal::NotLive);
    };
    match found.tag {
        Tag::Whole => Ok(Block {
            start: book
                .arena
                .run_offset(found.height, node_above(leaf, found.height)),
            size: run_bytes(found.height),
        }),
        Tag::Page(size) if found.height == 0 => tell_slot(book, o, size),
        _ => Err(Refusal::NotLive),
    }
}
