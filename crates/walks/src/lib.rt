// The three walks over the table (docs/TABLE.md): down, locate, up. Loops only; every index is bounded by numbers that do not come out of the table.
#![tactic(auto)]

ghost use Rattle.std.specs.Prelude.{◌≡◌, ◌%◌, ◌+◌, ◌*◌, ◌-◌, ◌<◌, ◌≤◌, ◌^◌, MatchOption, length, get_or};
ghost use Rattle.meaning.specs.Blocks.{m_most};
ghost use Rattle.cells.specs.Cell.{mask_digits};
ghost use Rattle.table.specs.Walks.{above};
ghost use Rattle.walks.specs.Posts.{Climbed, Descended, Located, Untagged, asked, wants};

mod book;

pub use book::{Book, Cells, Shown, Written};
use cells::{Tag, get, has_room_for, has_size, join, put, tag_of};
use terms::Arena;

// What `down` looks for.
#[derive(Clone, Copy)]
pub enum Wanted {
    // Room for 2^k pages.
    Run(u64),
    // A slot of a size number.
    Slot(u64),
}

impl Wanted {
    // Whether a cell has what is looked for.
    fn is_in(self, cell: u64) -> bool
        requires { asked self < mask_digits }
        ensures { result ≡ wants self cell }
    {
        match self {
            Wanted::Run(k) => has_room_for(cell, k),
            Wanted::Slot(c) => has_size(cell, c),
        }
    }
}

// From the root `levels` down, by the left half where its cell has what is looked for, else by the right: the node that is reached.
pub fn down(t: &[u64], levels: u64, what: Wanted, spent: &mut u64) -> usize
    requires what_in_range { asked what < mask_digits }
    requires levels_in_range { levels ≤ m_most }
    requires nodes_in_table { 2 * 2 ^ levels ≤ length t.now }
    requires few_spent { spent.old < 2 ^ 31 }
    ensures { Descended levels what t.now result spent.old spent.new }
{
    let mut v = 1;
    for _d in 0..levels {
        v = 2 * v;
        if !what.is_in(get(t, v, spent)) {
            v += 1;
        }
    }
    v
}

// A node's height above its leaves, and its tag.
#[derive(Clone, Copy)]
pub struct Tagged {
    pub height: u64,
    pub tag: Tag,
}

// From a leaf upward to the first node with a tag.
pub fn locate(t: &[u64], arena: Arena, leaf: usize, spent: &mut u64) -> Option<Tagged>
    requires leaf_in_table { leaf < length t.now }
    requires few_spent { spent.old < 2 ^ 31 }
    ensures { MatchOption result (Untagged t.now arena.m leaf spent.old spent.new) (λ found. Located t.now arena.m leaf found spent.old spent.new) }
{
    let mut v = leaf;
    for height in 0..=arena.m {
        let cell = get(t, v, spent);
        if let Some(tag) = tag_of(cell) {
            return Some(Tagged { height, tag });
        }
        v /= 2;
    }
    None
}

// The node h levels above a leaf.
pub fn node_above(leaf: usize, h: u64) -> usize
    requires { h ≤ m_most }
    ensures { result ≡ above h leaf }
{
    leaf >> h
}

// The other half of the node that v is a half of.
fn sibling(v: usize) -> usize
    requires { v < 2 ^ 32 }
    ensures { result ≡ v + 1 - 2 * (v % 2) }
{
    v + 1 - 2 * (v % 2)
}

// From the node `at` of a height, whose cell is `value`, to the root: each node above it becomes the join of its halves.
pub fn up(t: &mut [u64], arena: Arena, at: usize, height: u64, value: u64, spent: &mut u64)
    requires height_in_range { height ≤ arena.m }
    requires at_below { at < 2 * 2 ^ arena.m }
    requires nodes_in_table { 2 * 2 ^ arena.m ≤ length t.old }
    requires value_stored { value ≡ get_or t.old at 0 }
    requires few_spent { spent.old < 2 ^ 31 }
    ensures { Climbed arena.m at height t.old t.new spent.old spent.new }
{
    let mut v = at;
    let mut x = value;
    for h in height..arena.m {
        let other = get(t, sibling(v), spent);
        x = join(x, other, h);
        v /= 2;
        put(t, v, x, spent);
    }
}

// The place of a leaf's bitmap.
pub fn map_of(arena: Arena, w: usize) -> usize
    requires { w < 2 * 2 ^ arena.m }
    ensures { result ≡ w + 2 ^ arena.m }
{
    w + arena.pages()
}
