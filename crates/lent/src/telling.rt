// The answer of an offer in one number, for a host in C.
ghost use Rattle.std.specs.Prelude.{◌≡◌};
ghost use Rattle.told.specs.Told.{packed};
ghost use Rattle.channel.specs.Offers.{answer_paper, news_number};

use channel::{News, TakenString};
use relative::polarity_number;
use strings::Refusal;
use told::{refusal_told, verdict_told};

// The numbers of an answer in one number: the first in the lowest byte.
pub fn told_in(a: Result<TakenString, Refusal>) -> u64
    ensures { result ≡ packed (answer_paper a) }
{
    match a {
        Ok(taken) => {
            256 * (taken.m as u64)
                + 65536 * (verdict_told(taken.verdict) as u64)
                + 4294967296 * (news_told(taken.news) as u64)
                + 1099511627776 * (polarity_number(taken.polarity) as u64)
        }
        Err(why) => refusal_told(why) as u64,
    }
}

fn news_told(news: News) -> u8
    ensures { result ≡ news_number news }
{
    match news {
        News::AlreadyHeld => 0,
        News::Kept => 1,
        News::RecordBuilt => 2,
        News::RecordOutOfRange => 3,
    }
}
