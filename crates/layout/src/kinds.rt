// Which string numbers each kind has.
ghost use Rattle.std.specs.Prelude.{◌≡◌, ◌&&◌, ◌%◌, eqb, leb};
ghost use Rattle.layout.specs.Layout.{of_kind};

use records::Kind;

// Whether the string number m is of the kind.
pub fn is_of_kind(k: Kind, m: u8) -> bool
    ensures { result ≡ of_kind k m }
{
    match k {
        Kind::One => m == 1,
        Kind::Two => m == 2,
        Kind::Three => m == 3,
        Kind::Four => m == 4,
        Kind::Five => m == 5,
        Kind::Even => is_half(m, 6, 14, 0),
        Kind::Odd => is_half(m, 7, 15, 1),
        Kind::Fourteen => m == 14,
    }
}

// An almanac half: m from least to most, and even or odd.
fn is_half(m: u8, least: u8, most: u8, odd: u8) -> bool
    ensures { result ≡ (leb least m && (leb m most && eqb (m % 2) odd)) }
{
    if least <= m {
        if m <= most {
            return m % 2 == odd;
        }
    }
    false
}
