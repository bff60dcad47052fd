// One item written: a field to the output, or a stretch to the list.
ghost use Rattle.std.specs.Prelude.{◌≡◌, ◌++◌, ◌∷◌, ◌+◌, ◌*◌, ◌≤◌, length, take, drop};
ghost use Rattle.salvage.specs.Writing.{end_number};

use crate::Full;

// The n bytes of the file from `at` on, to the output from `w` on.
pub(crate) fn put_field(file: &[u8], at: usize, n: usize, out: &mut [u8], w: usize)
    requires { (at + n ≤ length file.now) × (w + n ≤ length out.old) }
    ensures { out.new ≡ take w out.old ++ (take n (drop at file.now) ++ drop (w + n) out.old) }
{
    let e = at + n;
    let f = w + n;
    out[w..f].copy_from_slice(&file[at..e]);
}

// Stretch number k of the list: its first byte and its count.
pub(crate) fn put_stretch(list: &mut [usize], k: usize, first: usize, count: usize)
    requires { 2 * k + 2 ≤ length list.old }
    ensures { list.new ≡ take (2 * k) list.old ++ (first ∷ (count ∷ drop (2 * k + 2) list.old)) }
{
    list[2 * k] = first;
    list[2 * k + 1] = count;
}

// 0, 44 or 45.
pub fn end_number(ended: Result<(), Full>) -> u8
    ensures { result ≡ end_number ended }
{
    match ended {
        Ok(()) => 0,
        Err(Full::Output(_)) => 44,
        Err(Full::List(_)) => 45,
    }
}
