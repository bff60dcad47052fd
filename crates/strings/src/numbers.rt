// A refusal in the paper's numbers, and a byte as a longer number.
ghost use Rattle.std.specs.Prelude.{◌≡◌, ◌<◌, get_or};
ghost use Rattle.strings.specs.declared.Refusal.TheVariants.{Damaged};
ghost use Rattle.strings.specs.Numbers.{damage_number, refusal_paper};

use crate::{Damage, Refusal};

// The number of a refusal.
pub fn refusal_number(r: Refusal) -> u8
    ensures { result ≡ get_or (refusal_paper r) 0 0 }
{
    match r {
        Refusal::Channel => 1,
        Refusal::Shape => 2,
        Refusal::Damaged(d) => damage_number(d),
        Refusal::Idle => 4,
        Refusal::Number => 5,
        Refusal::Early => 6,
        Refusal::Stale => 7,
        Refusal::OffBeat => 8,
        Refusal::Conflict => 9,
        Refusal::Range(_) => 10,
        Refusal::Place => 11,
        Refusal::Room => 12,
        Refusal::Nothing => 13,
        Refusal::Slot => 14,
        Refusal::Owner => 15,
        Refusal::Card => 16,
    }
}

// A damaged string is refused with its damage.
impl From<Damage> for Refusal {
    ghost from_gives = { λ d r. r ≡ Damaged d };

    fn from(d: Damage) -> Refusal {
        Refusal::Damaged(d)
    }
}

// The number of a damage.
fn damage_number(d: Damage) -> u8
    ensures { result ≡ damage_number d }
{
    match d {
        Damage::Unplaced => 31,
        Damage::Even => 32,
        Damage::Outside => 33,
    }
}

// A byte as a number of 32 bits, as the card's core computes. The bound keeps sums of bytes, and a length
// that a byte names, in range.
pub fn wide(x: u8) -> u32
    ensures { (result ≡ x) × (result < 256) }
{
    x as u32
}
