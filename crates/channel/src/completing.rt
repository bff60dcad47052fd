// What a string newly stored tells: whether strings 1 to 4 became the immediate record.
ghost use Rattle.std.specs.Prelude.{◌≡◌, length};
ghost use Rattle.channel.specs.Frame.{news_at};
ghost use Rattle.channel.specs.Row.{framed, is_built};
ghost use Rattle.channel.specs.Offers.{tells_record};

use crate::News;
use immediate::are_good;
use strings::{Refusal, Verdict};

// The news of string m, newly among the strings of a mask.
pub fn news_at(mask: u16, all: &[u8], m: u8) -> News
    requires { length all.now ≡ 165 }
    ensures { result ≡ news_at (framed 0 mask all.now) m }
{
    if 4 < m {
        return News::Kept;
    }
    if mask % 16 != 15 {
        return News::Kept;
    }
    if are_good(all) {
        News::RecordBuilt
    } else {
        News::RecordOutOfRange
    }
}

// Whether it is told of a plain string that a record is built.
pub fn is_built(a: Result<(u8, Verdict, News), Refusal>) -> bool
    ensures { result ≡ tells_record a }
{
    match a {
        Err(_) => false,
        Ok((_, _, news)) => is_record(news),
    }
}

fn is_record(news: News) -> bool
    ensures { result ≡ is_built news }
{
    matches!(news, News::RecordBuilt)
}
