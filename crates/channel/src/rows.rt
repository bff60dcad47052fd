// A row's mask and bytes.
ghost use Rattle.std.specs.Prelude.{◌≡◌, ◌≤◌};
ghost use Rattle.channel.specs.Row.{is_present, holds_frame, empty_row};

use crate::Row;
use immediate::Immediate;
use tallies::none_counted;

// A reset row.
pub fn empty_row() -> Row
    ensures { result ≡ empty_row }
{
    Row {
        strings: [0u8; 165],
        start: 0,
        present: 0,
        immediate: Immediate {
            strings: [0u8; 44],
            start: 0,
        },
        tallies: none_counted(),
    }
}

// Whether the mask has string m.
pub fn has_string(mask: u16, m: u8) -> bool
    requires { (1 ≤ m) × (m ≤ 15) }
    ensures { result ≡ is_present mask m }
{
    (mask >> (m - 1)) % 2 == 1
}

// Whether the mask has any string. Its sixteenth bit means nothing.
pub fn holds_frame(mask: u16) -> bool
    ensures { result ≡ holds_frame mask }
{
    mask % 32768 != 0
}
