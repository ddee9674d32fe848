// What is asked for, and how a list of numbers says it.
ghost use Rattle.std.specs.Prelude.{◌≡◌, get_or};
ghost use Rattle.sequence.specs.Numbers.{Reads};

// A request of document 01.
#[derive(Clone, Copy)]
pub(crate) enum Request {
    Start,
    Take(u64),
    GiveBack(u64),
    Which(u64),
    Figures,
    CheckUp,
}

// No request has this number.
#[derive(Clone, Copy)]
pub(crate) struct UnknownKind;

// A request from its two numbers, its kind and its argument.
impl TryFrom<[u64; 2]> for Request {
    type Error = UnknownKind;

    ghost try_from_gives = { λ pair result. Reads (get_or pair 0 0) (get_or pair 1 0) result };

    #[tactic(auto, unfolding(crate::specs::Numbers::as_request))]
    fn try_from(pair: [u64; 2]) -> Result<Request, UnknownKind> {
        let [kind, argument] = pair;
        match kind {
            0 => Ok(Request::Start),
            1 => Ok(Request::Take(argument)),
            2 => Ok(Request::GiveBack(argument)),
            3 => Ok(Request::Which(argument)),
            4 => Ok(Request::Figures),
            5 => Ok(Request::CheckUp),
            _ => Err(UnknownKind),
        }
    }
}
