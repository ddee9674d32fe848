// The table of an arena, exactly as long as it has to be: what every request works on.
ghost use Rattle.std.specs.Prelude.{◌≡◌, List, ℕ, ◌*◌, ◌^◌, length};
ghost use Rattle.table.specs.Table.{need};

use crate::{Tagged, Wanted, down, locate, map_of, up};
use cells::{get, put};
use terms::Arena;

// What may be lent: cells, as a list.
pub trait Cells: Drop {
    ghost list: { Self → List ℕ };

    fn shown(&self) -> &[u64]
        ensures { result.now ≡ list self.now };
}

impl<'a> Cells for &'a [u64] {
    ghost list = { λ cells. cells.now };

    fn shown(&self) -> &[u64] {
        self
    }
}

impl<'a> Cells for &'a mut [u64] {
    ghost list = { λ cells. cells.now };

    fn shown(&self) -> &[u64] {
        self
    }
}

// The cells that an arena needs, and the accesses to them. Above this crate its methods alone reach a cell or the count.
#[derive(Drop)]
pub struct Book<C: Cells> {
    cells: C,
    spent: u64,
    pub arena: Arena,
    pub ghost whole: { length (C.list cells) ≡ need arena.m },
}

// A book that may be written, and one that is only read.
pub type Written<'a> = Book<&'a mut [u64]>;

pub type Shown<'a> = Book<&'a [u64]>;

impl<C: Cells> Book<C> {
    ghost use Rattle.std.specs.Prelude.{◌+◌, ◌<◌, ◌≤◌, MatchOption, get_or};
    ghost use Rattle.cells.specs.Cell.{mask_digits};
    ghost use Rattle.walks.specs.Books.{IsKept, cells_of, spent_of};
    ghost use Rattle.walks.specs.Posts.{Descended, Located, Untagged, asked};

    // No access yet.
    pub fn new(cells: C, arena: Arena) -> Book<C>
        requires { length (C.list cells) ≡ need arena.m }
        ensures same_cells { result.cells ≡ cells }
        ensures same_arena { result.arena ≡ arena }
        ensures none_spent { spent_of result ≡ 0 }
    {
        Book {
            cells,
            spent: 0,
            arena,
        }
    }

    pub fn spent(&self) -> u64
        ensures { result ≡ spent_of self.now }
    {
        self.spent
    }

    // The cell at a place. One access.
    pub fn get(&mut self, at: usize) -> u64
        requires inside { at < need self.old.arena.m }
        requires countable { spent_of self.old < 2 ^ 32 }
        ensures kept { IsKept self.old self.new }
        ensures read { result ≡ get_or (cells_of self.old) at 0 }
        ensures counted { spent_of self.new ≡ spent_of self.old + 1 }
    {
        get(self.cells.shown(), at, &mut self.spent)
    }

    // The way down from the root.
    pub fn down(&mut self, levels: u64, what: Wanted) -> usize
        requires what_in_range { asked what < mask_digits }
        requires levels_in_range { levels ≤ self.old.arena.m }
        requires few_spent { spent_of self.old < 2 ^ 31 }
        ensures kept { IsKept self.old self.new }
        ensures reached { Descended levels what (cells_of self.old) result (spent_of self.old) (spent_of self.new) }
    {
        down(self.cells.shown(), levels, what, &mut self.spent)
    }

    // The way up from a leaf to the first node with a tag.
    pub fn locate(&mut self, leaf: usize) -> Option<Tagged>
        requires leaf_in_book { leaf < need self.old.arena.m }
        requires few_spent { spent_of self.old < 2 ^ 31 }
        ensures kept { IsKept self.old self.new }
        ensures found { MatchOption result (Untagged (cells_of self.old) self.old.arena.m leaf (spent_of self.old) (spent_of self.new)) (λ found. Located (cells_of self.old) self.old.arena.m leaf found (spent_of self.old) (spent_of self.new)) }
    {
        locate(self.cells.shown(), self.arena, leaf, &mut self.spent)
    }
}

impl<'a> Book<&'a mut [u64]> {
    ghost use Rattle.std.specs.Prelude.{◌+◌, ◌<◌, ◌≤◌, set};
    ghost use Rattle.walks.specs.Books.{IsSameBook, cells_of, spent_of};
    ghost use Rattle.walks.specs.Posts.{LeafPut, NodePut};

    // The same, to be written: what was lent ends as the book's cells.
    pub fn over(cells: &'a mut [u64], arena: Arena) -> Book<&'a mut [u64]>
        requires { length cells.old ≡ need arena.m }
        ensures same_lender { result.cells.ghost_name ≡ cells.entry.ghost_name }
        ensures same_cells { cells_of result ≡ cells.old }
        ensures same_arena { result.arena ≡ arena }
        ensures none_spent { spent_of result ≡ 0 }
    {
        Book::new(cells, arena)
    }

    // The cell at a place becomes v, and no other changes. One access.
    pub fn put(&mut self, at: usize, v: u64)
        requires inside { at < need self.old.arena.m }
        requires countable { spent_of self.old < 2 ^ 32 }
        ensures same_book { IsSameBook self.old self.new }
        ensures written { cells_of self.new ≡ set (cells_of self.old) at v }
        ensures counted { spent_of self.new ≡ spent_of self.old + 1 }
    {
        put(self.cells, at, v, &mut self.spent);
    }

    // A cell stored at the node v of a height, and the nodes above it mended.
    pub fn put_node(&mut self, v: usize, height: u64, cell: u64)
        requires height_in_range { height ≤ self.old.arena.m }
        requires v_below { v < 2 * 2 ^ self.old.arena.m }
        requires few_spent { spent_of self.old + 1 < 2 ^ 31 }
        ensures same_book { IsSameBook self.old self.new }
        ensures put { NodePut self.old.arena.m v height cell (cells_of self.old) (cells_of self.new) (spent_of self.old) (spent_of self.new) }
    {
        put(self.cells, v, cell, &mut self.spent);
        up(self.cells, self.arena, v, height, cell, &mut self.spent);
    }

    // A bitmap and a cell stored at the leaf w, and the nodes above it mended.
    pub fn put_leaf(&mut self, w: usize, cell: u64, bits: u64)
        requires w_from { 2 ^ self.old.arena.m ≤ w }
        requires w_below { w < 2 * 2 ^ self.old.arena.m }
        requires few_spent { spent_of self.old < 2 ^ 30 }
        ensures same_book { IsSameBook self.old self.new }
        ensures put { LeafPut self.old.arena.m w cell bits (cells_of self.old) (cells_of self.new) (spent_of self.old) (spent_of self.new) }
    {
        put(self.cells, map_of(self.arena, w), bits, &mut self.spent);
        self.put_node(w, 0, cell);
    }
}
