// Start (document 01, section 3), on a table of exactly the cells needed.
#![tactic(auto)]

ghost use Rattle.std.specs.Prelude.{◌≡◌, [], ◌*◌, ◌+◌, ◌-◌, ◌<◌, ◌≤◌, ◌^◌, length};
ghost use Rattle.table.specs.Start.{Filled};
ghost use Rattle.table.specs.Table.{Stands, need};
ghost use Rattle.walks.specs.Books.{IsSameBook, cells_of, spent_of};

use cells::vacant_cell;
use std::ops::Range;
use walks::Written;

// The cells of a run of places become x.
fn fill(book: &mut Written<'_>, run: Range<usize>, x: u64)
    requires in_order { run.start ≤ run.end }
    requires run_in_table { run.end ≤ need book.old.arena.m }
    requires few_spent { spent_of book.old + (run.end - run.start) < 2 ^ 32 }
    ensures same_book { IsSameBook book.old book.new }
    ensures filled { Filled (cells_of book.old) (cells_of book.new) run.start run.end x }
    ensures counted { spent_of book.new ≡ spent_of book.old + (run.end - run.start) }
{
    for at in run {
        book.put(at, x);
    }
}

// The table of an arena with no live block, whatever it held.
pub fn start_table(book: &mut Written<'_>)
    requires few_spent { spent_of book.old < 2 ^ 20 }
    ensures same_book { IsSameBook book.old book.new }
    ensures stands { Stands book.old.arena.m [] (cells_of book.new) }
    ensures long { length (cells_of book.new) ≡ length (cells_of book.old) }
    ensures cost { spent_of book.new ≤ spent_of book.old + need book.old.arena.m }
{
    let pages = book.arena.pages();
    fill(book, 2 * pages..3 * pages, 0);
    fill(book, 0..1, 0);
    for h in 0..=book.arena.m {
        fill(book, book.arena.level(h), vacant_cell(h));
    }
}
