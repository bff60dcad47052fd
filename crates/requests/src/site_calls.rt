// A second station is set aside, that of another site. No payload.
ghost use Rattle.std.specs.Prelude.{◌≤◌, IfOk};

use crate::Stations;
use crate::answers::{Unanswered, say_ok};
use crate::cards::CARD_ONE;
use crate::line::Text;
use crate::payloads::bytes;
use crate::station_queries::summary_call;
use sites::join_site;
use wire::{book_bytes, book_from};

// The two stations change places.
pub(crate) fn exchange_call(
    own: &[u8],
    stations: &mut Stations,
    text: &mut Text,
) -> Result<usize, Unanswered>
    ensures { IfOk result (λ n. n ≤ 512) }
{
    bytes::<0>(own)?;
    *stations = Stations {
        in_use: stations.aside,
        aside: stations.in_use,
    };
    Ok(say_ok(text))
}

// The book of the one set aside, as the bytes that a site sends, is joined into the one in use, which is
// then asked for its summary.
pub(crate) fn join_call(
    own: &[u8],
    stations: &mut Stations,
    text: &mut Text,
) -> Result<usize, Unanswered>
    ensures { IfOk result (λ n. n ≤ 512) }
{
    bytes::<0>(own)?;
    let theirs = stations.aside.book;
    let sent = book_bytes(theirs);
    let joined = join_site(stations.in_use, book_from(sent));
    stations.in_use = joined;
    summary_call(CARD_ONE, own, joined, text)
}
