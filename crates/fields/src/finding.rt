// The field that stands at a place of a slice.
ghost use Rattle.std.specs.Prelude.{◌≡◌, false, ◌∷◌, ◌+◌, ◌≤◌, ◌<◌, ◌^◌, length, drop};
ghost use Rattle.fields.specs.declared.Field.TheVariants.{Refused};
ghost use Rattle.fields.specs.Fields.{length_in, is_unknown, is_wrong, is_cut, size_at, why_number, field_paper, told_of, Finds};

use crate::{Field, Found, Why};
use strings::wide;

// The field at a place, tested in the order 43, 41, 42, and the place after it.
pub fn field_at(s: &[u8], at: usize) -> Found
    ensures { Finds s.now at result.field result.after }
{
    if s.len() <= at {
        return Found {
            field: Field::End,
            after: at,
        };
    }
    let tag = s[at];
    if is_cut(s, at) {
        return refused(Why::Cut, at);
    }
    if is_unknown(tag) {
        return refused(Why::Tag, at);
    }
    let size = length_at(s, at);
    let after = at + 3 + size;
    if is_wrong(tag, size) {
        return refused(Why::Length, at);
    }
    good(tag, at, after)
}

// How many bytes the good field at a place has, 0 where the field is refused and at the end.
pub fn size_at(s: &[u8], at: usize) -> usize
    ensures { result ≡ size_at s.now at }
{
    let found = field_at(s, at);
    found.after - at
}

// The reading stays where a field is refused.
fn refused(why: Why, at: usize) -> Found
    ensures { (result.field ≡ Refused why at) × (result.after ≡ at) }
{
    Found {
        field: Field::Refused(why, at),
        after: at,
    }
}

fn good(tag: u8, at: usize, after: usize) -> Found
    requires { (is_unknown tag ≡ false) × (at + 3 < 2 ^ 64) }
    ensures { (field_paper result.field ≡ 0 ∷ told_of at tag) × (result.after ≡ after) }
{
    let field = match tag {
        1 => Field::Offer(at + 3),
        2 => Field::Reset(at + 3),
        _ => Field::Remark,
    };
    Found { field, after }
}

// Whether the block ends inside the field at a place.
fn is_cut(s: &[u8], at: usize) -> bool
    requires { at ≤ length s.now }
    ensures { result ≡ is_cut (length_in (drop at s.now)) (length (drop at s.now)) }
{
    let left = s.len() - at;
    if left < 3 {
        return true;
    }
    left - 3 < length_at(s, at)
}

// The two bytes after the tag, the highest first.
fn length_at(s: &[u8], at: usize) -> usize
    requires { at + 3 ≤ length s.now }
    ensures { result ≡ length_in (drop at s.now) }
{
    (wide(s[at + 1]) * 256 + wide(s[at + 2])) as usize
}

fn is_unknown(tag: u8) -> bool
    ensures { result ≡ is_unknown tag }
{
    match tag {
        1 => false,
        2 => false,
        3 => false,
        _ => true,
    }
}

fn is_wrong(tag: u8, size: usize) -> bool
    ensures { result ≡ is_wrong tag size }
{
    match tag {
        1 => size != 16,
        2 => size != 1,
        _ => false,
    }
}

pub fn why_number(why: Why) -> u8
    ensures { result ≡ why_number why }
{
    match why {
        Why::Tag => 41,
        Why::Length => 42,
        Why::Cut => 43,
    }
}
