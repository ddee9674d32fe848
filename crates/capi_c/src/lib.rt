// The C interface (include/breatharena.h): each function exports that of `capi` under its own name, with its clauses. A table comes as a pointer
// and the number of its cells.
#![tactic(auto)]

ghost use Rattle.std.specs.Prelude.{◌≡◌, cond, ltb};
ghost use Rattle.meaning.specs.Answers.{check_up as ask_check_up, figures as ask_figures, give_back as ask_give_back, start as ask_start, take as ask_take, which as ask_which};
ghost use Rattle.meaning.specs.Blocks.{m_most};
ghost use Rattle.table.specs.Table.{need};
ghost use Rattle.arena.specs.Promises.{Exact, InOrder, Kept, RefusalAlone, Right, Started, TakenInside, ToldInside};
ghost use Rattle.capi.specs.Said.{said};

// The cells that a table for m needs; 0 where m is refused.
#[unsafe(no_mangle)]
pub extern "C" fn ba_table_cells(m: u64) -> u64
    ensures { result ≡ cond (ltb m_most m) 0 (need m) }
{
    capi::ba_table_cells(m)
}

#[unsafe(no_mangle)]
pub extern "C" fn ba_start(table: &mut [u64], m: u64) -> u64
    ensures in_order { InOrder m ask_start table.old (said result 0 0 0) }
    ensures refusal_changes_nothing { RefusalAlone table.old table.new (said result 0 0 0) }
    ensures stays_inside { Kept m table.old table.new }
    ensures right { Started m table.old table.new (said result 0 0 0) }
{
    capi::ba_start(table, m)
}

#[unsafe(no_mangle)]
pub extern "C" fn ba_take(table: &mut [u64], m: u64, n: u64, offset: &mut u64) -> u64
    ensures in_order { InOrder m (ask_take n) table.old (said result offset.new 0 0) }
    ensures refusal_changes_nothing { RefusalAlone table.old table.new (said result offset.new 0 0) }
    ensures stays_inside { Kept m table.old table.new × TakenInside m n (said result offset.new 0 0) }
    ensures right { Right m (ask_take n) table.old table.new (said result offset.new 0 0) }
{
    capi::ba_take(table, m, n, offset)
}

#[unsafe(no_mangle)]
pub extern "C" fn ba_give_back(table: &mut [u64], m: u64, offset: u64) -> u64
    ensures in_order { InOrder m (ask_give_back offset) table.old (said result 0 0 0) }
    ensures refusal_changes_nothing { RefusalAlone table.old table.new (said result 0 0 0) }
    ensures stays_inside { Kept m table.old table.new }
    ensures right { Right m (ask_give_back offset) table.old table.new (said result 0 0 0) }
{
    capi::ba_give_back(table, m, offset)
}

#[unsafe(no_mangle)]
pub extern "C" fn ba_which(
    table: &[u64],
    m: u64,
    offset: u64,
    start: &mut u64,
    size: &mut u64,
) -> u64
    ensures in_order { InOrder m (ask_which offset) table.now (said result start.new size.new 0) }
    ensures refusal_alone { RefusalAlone table.now table.now (said result start.new size.new 0) }
    ensures stays_inside { ToldInside m offset (said result start.new size.new 0) }
    ensures right { Right m (ask_which offset) table.now table.now (said result start.new size.new 0) }
{
    capi::ba_which(table, m, offset, start, size)
}

#[unsafe(no_mangle)]
pub extern "C" fn ba_figures(
    table: &[u64],
    m: u64,
    live: &mut u64,
    held: &mut u64,
    room: &mut u64,
) -> u64
    ensures in_order { InOrder m ask_figures table.now (said result live.new held.new room.new) }
    ensures refusal_alone { RefusalAlone table.now table.now (said result live.new held.new room.new) }
    ensures right { Right m ask_figures table.now table.now (said result live.new held.new room.new) }
{
    capi::ba_figures(table, m, live, held, room)
}

#[unsafe(no_mangle)]
pub extern "C" fn ba_check_up(table: &[u64], m: u64, sound: &mut u64) -> u64
    ensures in_order { InOrder m ask_check_up table.now (said result sound.new 0 0) }
    ensures refusal_alone { RefusalAlone table.now table.now (said result sound.new 0 0) }
    ensures exact { Exact m table.now (said result sound.new 0 0) }
{
    capi::ba_check_up(table, m, sound)
}
