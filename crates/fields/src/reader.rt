// The block reader: the lent bytes and a place among them, together. It gives one field at a time, and
// is thin above `field_at`.
ghost use Rattle.std.specs.Prelude.{◌≡◌};
ghost use Rattle.fields.specs.Fields.{Finds};

use crate::finding::field_at;
use crate::{Field, Found};

#[derive(Clone, Copy)]
pub struct Reader<'a> {
    pub src: &'a [u8],
    pub at: usize,
}

pub fn new<'a>(src: &'a [u8]) -> Reader<'a>
    ensures { (result.src ≡ src.entry) × (result.at ≡ 0) }
{
    Reader { src, at: 0 }
}

pub fn moved<'a>(r: Reader<'a>, at: usize) -> Reader<'a>
    ensures { (result.src ≡ r.entry.src) × (result.at ≡ at) }
{
    Reader { src: r.src, at }
}

// One field, and the reader moves past it. It stays where the field is refused, and at the end.
pub fn advance<'s, 'a>(r: &'s mut Reader<'a>) -> Field
    ensures { Finds r.old.src.now r.old.at result r.new.at × (r.new.src ≡ r.old.src) }
{
    let found = field_at(r.src, r.at);
    r.at = found.after;
    found.field
}

// The same with plain parameters: whoever calls this one needs no walk by hand.
pub fn next_at(s: &[u8], at: usize) -> Found
    ensures { Finds s.now at result.field result.after }
{
    let mut r = moved(new(s), at);
    let field = advance(&mut r);
    Found { field, after: r.at }
}
