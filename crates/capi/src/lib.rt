// What each function of the C interface (include/breatharena.h) does: a thin one over the library, which `capi_c` exports under its own name.
// A table comes as a slice. Each returns 0 or the refusal number; on refusal every value handed back is 0. No function asks anything of its
// caller's numbers or cells.
#![tactic(auto)]

ghost use Rattle.std.specs.Prelude.{◌≡◌, cond, ltb};
ghost use Rattle.meaning.specs.Answers.{check_up as ask_check_up, figures as ask_figures, give_back as ask_give_back, start as ask_start, take as ask_take, which as ask_which};
ghost use Rattle.meaning.specs.Blocks.{m_most};
ghost use Rattle.table.specs.Table.{need};
ghost use Rattle.arena.specs.Promises.{Exact, InOrder, Kept, RefusalAlone, Right, Started, TakenInside, ToldInside};
ghost use Rattle.capi.specs.Said.{said};

// The cells that a table for m needs; 0 where m is refused.
pub fn ba_table_cells(m: u64) -> u64
    ensures { result ≡ cond (ltb m_most m) 0 (need m) }
{
    arena::table_cells(m) as u64
}

pub fn ba_start(table: &mut [u64], m: u64) -> u64
    ensures in_order { InOrder m ask_start table.old (said result 0 0 0) }
    ensures refusal_changes_nothing { RefusalAlone table.old table.new (said result 0 0 0) }
    ensures stays_inside { Kept m table.old table.new }
    ensures right { Started m table.old table.new (said result 0 0 0) }
{
    let [refusal, ..] = arena::start(table, m).numbers();
    refusal
}

pub fn ba_take(table: &mut [u64], m: u64, n: u64, offset: &mut u64) -> u64
    ensures in_order { InOrder m (ask_take n) table.old (said result offset.new 0 0) }
    ensures refusal_changes_nothing { RefusalAlone table.old table.new (said result offset.new 0 0) }
    ensures stays_inside { Kept m table.old table.new × TakenInside m n (said result offset.new 0 0) }
    ensures right { Right m (ask_take n) table.old table.new (said result offset.new 0 0) }
{
    let [refusal, first, ..] = arena::take(table, m, n).numbers();
    *offset = first;
    refusal
}

pub fn ba_give_back(table: &mut [u64], m: u64, offset: u64) -> u64
    ensures in_order { InOrder m (ask_give_back offset) table.old (said result 0 0 0) }
    ensures refusal_changes_nothing { RefusalAlone table.old table.new (said result 0 0 0) }
    ensures stays_inside { Kept m table.old table.new }
    ensures right { Right m (ask_give_back offset) table.old table.new (said result 0 0 0) }
{
    let [refusal, ..] = arena::give_back(table, m, offset).numbers();
    refusal
}

pub fn ba_which(table: &[u64], m: u64, offset: u64, start: &mut u64, size: &mut u64) -> u64
    ensures in_order { InOrder m (ask_which offset) table.now (said result start.new size.new 0) }
    ensures refusal_alone { RefusalAlone table.now table.now (said result start.new size.new 0) }
    ensures stays_inside { ToldInside m offset (said result start.new size.new 0) }
    ensures right { Right m (ask_which offset) table.now table.now (said result start.new size.new 0) }
{
    let [refusal, first, second, _] = arena::which(table, m, offset).numbers();
    *start = first;
    *size = second;
    refusal
}

pub fn ba_figures(table: &[u64], m: u64, live: &mut u64, held: &mut u64, room: &mut u64) -> u64
    ensures in_order { InOrder m ask_figures table.now (said result live.new held.new room.new) }
    ensures refusal_alone { RefusalAlone table.now table.now (said result live.new held.new room.new) }
    ensures right { Right m ask_figures table.now table.now (said result live.new held.new room.new) }
{
    let [refusal, first, second, third] = arena::figures(table, m).numbers();
    *live = first;
    *held = second;
    *room = third;
    refusal
}

pub fn ba_check_up(table: &[u64], m: u64, sound: &mut u64) -> u64
    ensures in_order { InOrder m ask_check_up table.now (said result sound.new 0 0) }
    ensures refusal_alone { RefusalAlone table.now table.now (said result sound.new 0 0) }
    ensures exact { Exact m table.now (said result sound.new 0 0) }
{
    let [refusal, first, ..] = arena::check_up(table, m).numbers();
    *sound = first;
    refusal
}
