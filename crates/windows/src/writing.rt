// What is wanted of an item, written to the output from a place on. Each function answers the place past
// it.
ghost use Rattle.std.specs.Prelude.{[], ◌+◌, ◌≤◌, length};
ghost use Rattle.digits.specs.Text.{Puts};
ghost use Rattle.salvage.specs.Items.{Kept, Skipped};
ghost use Rattle.windows.specs.Shown.{record_of, shown_of};

use crate::Wanted;
use digits::{put, put_numbers};

// A field that is kept, of n bytes.
pub fn put_field(
    wanted: Wanted,
    window: &[u8],
    at: usize,
    n: usize,
    out: &mut [u8],
    written: usize,
) -> usize
    requires { (3 ≤ n) × ((at + n ≤ length window.now) × (written + n ≤ length out.old)) }
    ensures { Puts out.old written (shown_of wanted window.now (Kept at n)) out.new result × (result ≤ written + n) }
{
    match wanted {
        Wanted::Fields => put(out, written, &window[at..at + n]),
        Wanted::Stretches => written,
        Wanted::Records => put_record(window, at, n, out, written),
    }
}

// The bytes behind tag and length of an offer, and nothing of another field.
fn put_record(window: &[u8], at: usize, n: usize, out: &mut [u8], written: usize) -> usize
    requires { (3 ≤ n) × ((at + n ≤ length window.now) × (written + n ≤ length out.old)) }
    ensures { Puts out.old written (record_of window.now (Kept at n)) out.new result × (result ≤ written + n) }
{
    if window[at] == 1 {
        put(out, written, &window[at + 3..at + n])
    } else {
        written
    }
}

// A stretch that is skipped: its first byte and its count.
pub fn put_stretch(
    wanted: Wanted,
    first: usize,
    count: usize,
    out: &mut [u8],
    written: usize,
) -> usize
    requires { written + 42 ≤ length out.old }
    ensures { Puts out.old written (shown_of wanted [] (Skipped first count)) out.new result × (result ≤ written + 42) }
{
    match wanted {
        Wanted::Fields => written,
        Wanted::Stretches => put_numbers(out, written, &[first as u64, count as u64]),
        Wanted::Records => written,
    }
}
