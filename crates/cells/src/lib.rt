// The cells of the table (docs/TABLE.md). The one crate that reaches a cell, and the one that knows how a cell is packed.
// "Section" is one of document 01.
#![tactic(auto)]

ghost use Rattle.std.specs.Prelude.{◌≡◌, cond, false, true, ◌+◌, ◌-◌, ◌<◌, ◌^◌, ◌≤◌, eqb, get_or, length, set, MatchOption};
ghost use Rattle.std.specs.Int.Bits.{bit_or};
ghost use Rattle.digits.specs.Digits.{First, bit_at, ones};
ghost use Rattle.cells.specs.Tags.{Says};
ghost use Rattle.cells.specs.Cell.{has_room_for, has_size, joined, mask_digits, open_count, packed, room_in, room_span, tag_in, whole_tag};

use terms::Size;

// The fields of a cell: room + ROOM_SPAN * (tag + TAG_SPAN * mask). What they mean is in specs/Cell.antt.
const ROOM_SPAN: u64 = 64;

const TAG_SPAN: u64 = 64;

const MASK_UNIT: u64 = ROOM_SPAN * TAG_SPAN;

// The tag of a node that is one large live block.
const WHOLE_TAG: u64 = 63;

// ---- the table: every access is counted (section 5)

// One access more.
fn count(spent: &mut u64)
    requires { spent.old < 2 ^ 32 }
    ensures { spent.new ≡ spent.old + 1 }
{
    *spent += 1;
}

// The cell at a place. One access.
pub fn get(t: &[u64], at: usize, spent: &mut u64) -> u64
    requires inside { at < length t.now }
    requires countable { spent.old < 2 ^ 32 }
    ensures read { result ≡ get_or t.now at 0 }
    ensures counted { spent.new ≡ spent.old + 1 }
{
    count(spent);
    t[at]
}

// The cell at a place becomes v, and no other changes. One access.
pub fn put(t: &mut [u64], at: usize, v: u64, spent: &mut u64)
    requires inside { at < length t.old }
    requires countable { spent.old < 2 ^ 32 }
    ensures written { t.new ≡ set t.old at v }
    ensures counted { spent.new ≡ spent.old + 1 }
{
    count(spent);
    t[at] = v;
}

// ---- a bitmap: digit i is 1 where slot i is not live (section 2)

// The number whose only digit 1 is digit i.
fn digit(i: u64) -> u64
    requires { i < 64 }
    ensures { result ≡ 2 ^ i }
{
    1 << i
}

// Whether slot i is not live.
pub fn is_open(bits: u64, i: u64) -> bool
    requires { i < 64 }
    ensures { result ≡ bit_at i bits }
{
    (bits >> i) % 2 == 1
}

// The bitmap once slot i, which was not live, is.
pub fn without(bits: u64, i: u64) -> u64
    requires within { i < 64 }
    requires not_live { bit_at i bits ≡ true }
    ensures { result ≡ bits - 2 ^ i }
{
    bits - digit(i)
}

// The bitmap once slot i, which was live, is not.
pub fn with_slot(bits: u64, i: u64) -> u64
    requires within { i < 64 }
    requires live { bit_at i bits ≡ false }
    ensures { result ≡ bits + 2 ^ i }
{
    bits + digit(i)
}

// The bitmap of n slots of which none is live: the highest digit and all below it, so that 64 slots fit too.
pub fn all_open(n: u64) -> u64
    requires some { 1 ≤ n }
    requires fitting { n ≤ 64 }
    ensures { result ≡ ones n }
{
    let highest = digit(n - 1);
    highest + (highest - 1)
}

// The lowest slot that is not live, in a bitmap that has one.
pub fn lowest(bits: u64) -> u64
    requires { 0 < bits }
    ensures { First bits result }
{
    (0..64).find(|i| is_open(bits, *i)).unwrap()
}

// How many slots are not live.
pub fn count_open(bits: u64) -> u64
    ensures { result ≡ open_count bits }
{
    u64::count_ones(bits) as u64
}

// ---- a cell of the tree, read

// 0 if no page below is free, else one more than the k of the largest free run of 2^k pages (section 3, room).
pub fn room_of(cell: u64) -> u64
    ensures { result ≡ room_in cell }
{
    cell % ROOM_SPAN
}

// What the tag of a cell says of its node.
#[derive(Clone, Copy)]
pub enum Tag {
    // A page that serves a size.
    Page(Size),
    // One large live block.
    Whole,
    // A tag that no sound table has.
    Other(u64),
}

// What a cell's tag says, if the node has one.
pub fn tag_of(cell: u64) -> Option<Tag>
    ensures { MatchOption result (tag_in cell ≡ 0) (λ tag. Says tag (tag_in cell)) }
{
    let tag = cell / ROOM_SPAN % TAG_SPAN;
    if tag == 0 {
        return None;
    }
    if tag == WHOLE_TAG {
        return Some(Tag::Whole);
    }
    match Size::numbered(tag - 1) {
        Some(size) => Some(Tag::Page(size)),
        None => Some(Tag::Other(tag)),
    }
}

// Whether some page below serves size number c and has a slot that is not live (section 3, take).
pub fn has_size(cell: u64, c: u64) -> bool
    requires { c < mask_digits }
    ensures { result ≡ has_size c cell }
{
    is_open(cell / MASK_UNIT, c)
}

// Whether there is room below for 2^k pages (section 3, take).
pub fn has_room_for(cell: u64, k: u64) -> bool
    ensures { result ≡ has_room_for k cell }
{
    k < cell % ROOM_SPAN
}

// ---- a cell of the tree, made

// The sizes that one mask or the other has.
fn either(a: u64, b: u64) -> u64
    requires left { a < 2 ^ mask_digits }
    requires right { b < 2 ^ mask_digits }
    ensures union { result ≡ bit_or a b }
    ensures fitting { result < 2 ^ mask_digits }
{
    a | b
}

// The cell above two halves of height h. Where both are free all through, their rooms are h + 1, and the room of the whole is one more.
pub fn join(a: u64, b: u64, h: u64) -> u64
    ensures { result ≡ joined h a b }
{
    let x = a % ROOM_SPAN;
    let y = b % ROOM_SPAN;
    let rest = MASK_UNIT * either(a / MASK_UNIT, b / MASK_UNIT);
    if x < y {
        if h < x {
            rest + (y + (x - h))
        } else {
            rest + y
        }
    } else {
        if h < y {
            rest + (x + (y - h))
        } else {
            rest + x
        }
    }
}

// The cell of a node that is one large live block.
pub fn whole_cell() -> u64
    ensures { result ≡ packed 0 whole_tag 0 }
{
    ROOM_SPAN * WHOLE_TAG
}

// The cell of a node of height h whose pages are all free.
pub fn vacant_cell(h: u64) -> u64
    requires { h < room_span - 2 }
    ensures number { result ≡ h + 1 }
    ensures cell { result ≡ packed (h + 1) 0 0 }
{
    h + 1
}

// The cell of a page that serves a size, with its bitmap: a full page, whose bitmap is 0, has no slot to offer.
pub fn page_cell(size: Size, bits: u64) -> u64
    ensures { result ≡ packed 0 (size.number + 1) (cond (eqb bits 0) 0 (2 ^ size.number)) }
{
    let served = ROOM_SPAN * (size.number + 1);
    if bits == 0 {
        served
    } else {
        served + MASK_UNIT * digit(size.number)
    }
}
