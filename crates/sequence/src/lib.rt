// Any number of requests, one after the other, and two units side by side.
#![tactic(auto)]

ghost use Rattle.std.specs.Prelude.{◌≡◌, ◌&&◌, ◌++◌, ◌*◌, ◌+◌, ◌<◌, false, true, ◌≤◌, drop, get_or, is_ok, length, take as take_front};
ghost use Rattle.meaning.specs.Answers.{start as ask_start};
ghost use Rattle.meaning.specs.Blocks.{Live};
ghost use Rattle.table.specs.Table.{Stands};
ghost use Rattle.terms.specs.Answers.{as_answer};
ghost use Rattle.arena.specs.Numbers.{numbers_in};
ghost use Rattle.arena.specs.Promises.{Kept, at_once};
ghost use Rattle.sequence.specs.Numbers.{as_request, asks, begins_with_start, known, requests_of, servable};
ghost use Rattle.sequence.specs.Serving.{Alike, Answered, InTurn, Serves, cost_all, cost_most, cost_of};

mod request;

use arena::{Counted, Tells, check_up, figures, give_back, start, take, which};
use request::Request;
use terms::{M_MOST, Refusal};

// How many requests one call serves at most.
const REQUESTS_MOST: usize = 4294967296;

// Whether a list is of whole requests of known kinds.
fn all_known(requests: &[u64]) -> bool
    ensures { result ≡ known requests.now }
{
    let (pairs, rest) = requests.as_chunks::<2>();
    rest.is_empty() && pairs.iter().all(|pair| Request::try_from(*pair).is_ok())
}

// Whether the requests can be served, with so many places for their answers.
#[tactic(auto, unfolding(crate::specs::Numbers::servable))]
fn can_serve(requests: &[u64], places: usize) -> bool
    ensures { result ≡ servable requests.now places }
{
    all_known(requests) && requests.len() <= 2 * REQUESTS_MOST && places == 2 * requests.len()
}

// What is answered, as numbers, and the accesses to the table.
fn told<T: Tells>(counted: Counted<T>) -> ([u64; 4], u64)
    ensures numbers { result.0 ≡ numbers_in (as_answer T.told counted.answer) }
    ensures accesses { result.1 ≡ counted.spent }
{
    (counted.numbers(), counted.spent)
}

// One request. An m that is too large is refused here, so that the count stays small.
#[tactic(auto, unfolding(crate::specs::Serving::cost_of))]
fn serve_one(t: &mut [u64], m: u64, request: Request) -> ([u64; 4], u64)
    ensures promised { Answered m (asks request) t.old t.new result.0 }
    ensures ends_within { result.1 ≤ cost_of m (asks request) }
    ensures few { result.1 ≤ cost_most }
{
    if M_MOST < m {
        return (Counted::<()>::refused(Refusal::LargeArena).numbers(), 0);
    }
    match request {
        Request::Start => told(start(t, m)),
        Request::Take(n) => told(take(t, m, n)),
        Request::GiveBack(o) => told(give_back(t, m, o)),
        Request::Which(o) => told(which(t, m, o)),
        Request::Figures => told(figures(t, m)),
        Request::CheckUp => told(check_up(t, m)),
    }
}

// The request at a place among known ones.
fn request_at(requests: &[u64], i: usize) -> Request
    requires kinds { known requests.now ≡ true }
    requires within { 2 * i + 1 < length requests.now }
    ensures { asks result ≡ as_request (get_or requests.now (2 * i) 0) (get_or requests.now (2 * i + 1) 0) }
{
    let (pairs, _) = requests.as_chunks::<2>();
    Request::try_from(pairs[i]).unwrap()
}

// The numbers of an answer, stored at its place.
fn store(answers: &mut [u64], i: usize, numbers: [u64; 4])
    requires { 4 * i + 4 ≤ length answers.old }
    ensures long { length answers.new ≡ length answers.old }
    ensures written { take_front (4 * i + 4) answers.new ≡ take_front (4 * i) answers.old ++ numbers }
    ensures beyond { drop (4 * i + 4) answers.new ≡ drop (4 * i + 4) answers.old }
{
    answers[4 * i..4 * i + 4].copy_from_slice(&numbers);
}

// The lists do not fit each other, or a kind is not known.
#[derive(Clone, Copy)]
pub struct NotServed;

// Whether the requests were served, and the accesses to the table that it took.
#[derive(Clone, Copy)]
pub struct Served {
    pub answer: Result<(), NotServed>,
    pub spent: u64,
}

// Serves requests, two numbers each, into answers, four numbers each. Where a kind is not known or the lists do not fit each other nothing is served
// and nothing changes.
pub fn serve(t: &mut [u64], m: u64, requests: &[u64], answers: &mut [u64]) -> Served
    ensures whole_or_not { is_ok result.answer ≡ servable requests.now (length answers.old) }
    ensures refusal_changes_nothing { is_ok result.answer ≡ false → (t.new ≡ t.old) × (answers.new ≡ answers.old) }
    ensures stays_inside { Kept m t.old t.new × (length answers.new ≡ length answers.old) }
    ensures ends_within { result.spent ≤ cost_all m (requests_of requests.now) }
    ensures right { is_ok result.answer ≡ true → Serves m requests.now t.old t.new answers.new }
    ensures one_by_one { is_ok result.answer ≡ true → InTurn m requests.now t.old t.new answers.new }
{
    if !can_serve(requests, answers.len()) {
        return Served {
            answer: Err(NotServed),
            spent: 0,
        };
    }
    let mut spent = 0;
    for i in 0..requests.len() / 2 {
        let (numbers, accesses) = serve_one(t, m, request_at(requests, i));
        store(answers, i, numbers);
        spent += accesses;
    }
    Served {
        answer: Ok(()),
        spent,
    }
}

// Serves the same requests to two units, each with its own table and its own answers. Where one of them can not be served, nothing changes.
pub fn serve_both(
    t: &mut [u64],
    u: &mut [u64],
    m: u64,
    requests: &[u64],
    a: &mut [u64],
    b: &mut [u64],
) -> bool
    ensures whole_or_not { result ≡ servable requests.now (length a.old) && servable requests.now (length b.old) }
    ensures refusal_changes_nothing { result ≡ false → (t.new ≡ t.old) × (u.new ≡ u.old) × (a.new ≡ a.old) × (b.new ≡ b.old) }
    ensures stays_inside { Kept m t.old t.new × Kept m u.old u.new }
    ensures right { result ≡ true → Serves m requests.now t.old t.new a.new × Serves m requests.now u.old u.new b.new }
    ensures no_memory { (L : Live) → result ≡ true → Stands m L t.old → Stands m L u.old → Alike m t.new a.new u.new b.new }
    ensures new_after_start { result ≡ true → begins_with_start requests.now ≡ true → at_once t.old m ask_start ≡ 0 → at_once u.old m ask_start ≡ 0 → Alike m t.new a.new u.new b.new }
{
    if !can_serve(requests, a.len()) || !can_serve(requests, b.len()) {
        return false;
    }
    serve(t, m, requests, a);
    serve(u, m, requests, b);
    true
}
