// A whole block, done on a station.
ghost use Rattle.std.specs.Prelude.{◌≡◌};
ghost use Rattle.blocks.specs.Handing.{is_last, ended_by, HandsOver};

use crate::taking::take_field;
use crate::{Handed, Told};
use fields::Why;
use station::Station;

// Does the fields of a block, which a card hands over, in the order written, up to its end or to the first that is refused.
pub fn hand_over(st: Station, card: u8, block: &[u8]) -> Handed
    ensures { HandsOver st card block.now result }
{
    let mut next = st;
    let mut at = 0;
    // no index is counted: each field says where the next one stands
    loop {
        let taken = take_field(next, card, block, at);
        next = taken.station;
        let told = taken.told;
        if is_last(told) {
            return Handed {
                station: next,
                ended: ended_by(told),
            };
        }
        at = taken.after;
    }
}

// The end, and a field that is refused; no call is, whatever it was answered.
fn is_last(told: Told) -> bool
    ensures { result ≡ is_last told }
{
    match told {
        Told::End => true,
        Told::Offered(_) => false,
        Told::Emptied(_) => false,
        Told::Remark => false,
        Told::Refused(_, _) => true,
    }
}

fn ended_by(told: Told) -> Result<(), (Why, usize)>
    ensures { result ≡ ended_by told }
{
    match told {
        Told::End => Ok(()),
        Told::Offered(_) => Ok(()),
        Told::Emptied(_) => Ok(()),
        Told::Remark => Ok(()),
        Told::Refused(why, place) => Err((why, place)),
    }
}
