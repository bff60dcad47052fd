// Which request it is, and which card asks. Requests 6 to 11, 13, 14 and 23 speak for card one; the same 32
// higher have the card in the first byte of their payload.
ghost use Rattle.std.specs.Prelude.{◌≡◌};
ghost use Rattle.strings.specs.Pick.{is_one_of};
ghost use Rattle.requests.specs.Numbers.{number_of};
ghost use Rattle.requests.specs.Cards.{of_cards, NamesCard, AsksIfAny};

use crate::kinds::Request;

// The card that a request speaks for where it names none.
pub(crate) const CARD_ONE: u8 = 1;

// How far above its request the op stands that names a card.
const HIGHER: u8 = 32;

// A request, the card that asks, and what of the payload is the request's own.
#[derive(Clone, Copy)]
pub(crate) struct Asking<'a> {
    pub(crate) request: Request,
    pub(crate) card: u8,
    pub(crate) own: &'a [u8],
}

// None for an op that is none, and for one whose payload lacks the card.
pub(crate) fn who_asks<'a>(op: u8, payload: &'a [u8]) -> Option<Asking<'a>>
    ensures { AsksIfAny op payload.now result }
{
    if let Some(request) = of_any_card(op) {
        let (card, own) = payload.split_first()?;
        return Some(Asking {
            request,
            card: *card,
            own,
        });
    }
    let request = Request::from_number(op)?;
    Some(Asking {
        request,
        card: CARD_ONE,
        own: payload,
    })
}

// The request of an op that names a card.
fn of_any_card(op: u8) -> Option<Request>
    ensures { NamesCard op result }
{
    let request = Request::from_number(op.checked_sub(HIGHER)?)?;
    if is_of_cards(request) {
        Some(request)
    } else {
        None
    }
}

// Whether a card makes this request.
fn is_of_cards(request: Request) -> bool
    ensures { result ≡ is_one_of of_cards (number_of request) }
{
    match request {
        Request::Offer
        | Request::Reset
        | Request::Immediate
        | Request::Entry
        | Request::Tallies
        | Request::Health
        | Request::Block
        | Request::Summary
        | Request::EntryWords => true,
        _ => false,
    }
}
