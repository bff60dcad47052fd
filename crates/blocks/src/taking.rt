// One field of a block, done on a station.
ghost use Rattle.std.specs.Prelude.{◌≡◌, length};
ghost use Rattle.fields.specs.Block.{Reset, offer_of};
ghost use Rattle.blocks.specs.Taking.{Makes, Takes};

use crate::{Taken, Told};
use fields::{Field, channel_in, epoch_in, next_at, symbols_in};
use station::Station;

// Does the field at a place, asked by a card. A call's own refusal is its answer, and stops nothing.
pub fn take_field(st: Station, card: u8, block: &[u8], at: usize) -> Taken
    ensures { Takes st card block.now at result }
{
    let found = next_at(block, at);
    let field = found.field;
    let after = found.after;
    match field {
        Field::End => no_call(st, Told::End, after),
        Field::Offer(body) => offer_field(st, card, &block[body..body + 16], after),
        Field::Reset(body) => reset_field(st, card, block[body], after),
        Field::Remark => no_call(st, Told::Remark, after),
        Field::Refused(why, place) => no_call(st, Told::Refused(why, place), after),
    }
}

// The station stays as it was.
fn no_call(st: Station, told: Told, after: usize) -> Taken
    ensures { (result.station ≡ st) × ((result.told ≡ told) × (result.after ≡ after)) }
{
    Taken {
        station: st,
        told,
        after,
    }
}

// An offer, from its sixteen bytes.
fn offer_field(st: Station, card: u8, body: &[u8], after: usize) -> Taken
    requires { length body.now ≡ 16 }
    ensures { Makes st card (offer_of body.now) after result }
{
    let channel = channel_in(body);
    let epoch = epoch_in(body);
    let stepped = station::offer(st, card, channel, epoch, symbols_in(body));
    let next = stepped.station;
    let answer = stepped.answer;
    Taken {
        station: next,
        told: Told::Offered(answer),
        after,
    }
}

// A reset of a channel.
fn reset_field(st: Station, card: u8, channel: u8, after: usize) -> Taken
    ensures { Makes st card (Reset channel) after result }
{
    let emptied = station::reset(st, card, channel);
    let next = emptied.station;
    let answer = emptied.answer;
    Taken {
        station: next,
        told: Told::Emptied(answer),
        after,
    }
}
