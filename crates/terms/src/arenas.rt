// Arenas and places in them (sections 1 and 2).
ghost use Rattle.std.specs.Prelude.{◌≡◌, ◌+◌, ◌*◌, ◌-◌, ◌/◌, ◌<◌, ◌≤◌, ◌^◌, MatchResult};
ghost use Rattle.std.proofs.Math.Option.{some};
ghost use Rattle.meaning.specs.Blocks.{page_bytes, m_most, arena, small, slots, slot, large};
ghost use Rattle.meaning.specs.Answers.{k_for};

use crate::answers::Refusal;
use crate::small::Size;
use std::ops::Range;

// The bytes of a page.
pub const PAGE_BYTES: u64 = 1024;

// The largest m.
pub const M_MOST: u64 = 12;

// An arena of 2^m pages.
#[derive(Clone, Copy)]
pub struct Arena {
    pub m: u64,
    pub ghost in_range: { m ≤ m_most },
}

// The pages of a run, as an index.
fn run_pages(k: u64) -> usize
    requires { k ≤ m_most }
    ensures { result ≡ 2 ^ k }
{
    1 << k
}

// The size of 2^k pages.
pub fn run_bytes(k: u64) -> u64
    requires { k ≤ m_most }
    ensures { result ≡ page_bytes * 2 ^ k }
{
    PAGE_BYTES << k
}

impl Arena {
    pub fn new(m: u64) -> Result<Arena, Refusal>
        ensures { MatchResult result (λ made. made.m ≡ m) (λ why. (why ≡ Refusal.LargeArena) × m_most < m) }
    {
        if m <= M_MOST {
            Ok(Arena { m })
        } else {
            Err(Refusal::LargeArena)
        }
    }

    pub fn pages(self) -> usize
        ensures { result ≡ 2 ^ self.m }
    {
        run_pages(self.m)
    }

    pub fn bytes(self) -> u64
        ensures { result ≡ arena self.m }
    {
        run_bytes(self.m)
    }

    // The nodes of height h (docs/TABLE.md).
    pub fn level(self, h: u64) -> Range<usize>
        requires { h ≤ self.m }
        ensures starts { result.start ≡ 2 ^ (self.m - h) }
        ensures ends { result.end ≡ 2 * 2 ^ (self.m - h) }
    {
        let first = run_pages(self.m - h);
        first..2 * first
    }

    // The cells that a table for this arena needs (docs/TABLE.md).
    pub fn cells(self) -> usize
        ensures { result ≡ 3 * 2 ^ self.m }
    {
        3 * self.pages()
    }

    // The least k with 2^k pages for n bytes (section 3, take).
    pub fn k_for(self, n: u64) -> u64
        requires { n ≤ arena self.m }
        ensures found { k_for self.m n ≡ some result }
        ensures small { result ≤ self.m }
    {
        let mut bytes = PAGE_BYTES;
        for k in 0..self.m {
            if n <= bytes {
                return k;
            }
            bytes *= 2;
        }
        self.m
    }

    // The offset of the node v of height k: of its first page.
    pub fn run_offset(self, k: u64, v: usize) -> u64
        requires k_in_range { k ≤ self.m }
        requires v_from { 2 ^ (self.m - k) ≤ v }
        requires v_below { v < 2 * 2 ^ (self.m - k) }
        ensures starts { result ≡ (large k (v - 2 ^ (self.m - k))).start }
        ensures inside { result + page_bytes * 2 ^ k ≤ arena self.m }
    {
        let place = v - self.level(k).start;
        place as u64 * run_bytes(k)
    }

    // The offset of slot i of a size in the page of leaf w.
    pub fn slot_offset(self, size: Size, w: usize, i: u64) -> u64
        requires i_in_page { i < slots size.number }
        requires w_from { 2 ^ self.m ≤ w }
        requires w_below { w < 2 * 2 ^ self.m }
        ensures starts { result ≡ (slot size.number (w - 2 ^ self.m) i).start }
        ensures inside { result + small size.number ≤ arena self.m }
    {
        let page = w - self.pages();
        PAGE_BYTES * page as u64 + i * size.bytes()
    }

    // The leaf of the page that holds the byte at an offset.
    pub fn leaf_at(self, o: u64) -> usize
        requires { o < arena self.m }
        ensures exact { result ≡ 2 ^ self.m + o / page_bytes }
        ensures below { result < 2 * 2 ^ self.m }
    {
        self.pages() + (o / PAGE_BYTES) as usize
    }
}
