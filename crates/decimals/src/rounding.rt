// Thirteen figures of a / 2 ^ p, rounded once from the exact number.
ghost use Rattle.std.specs.Prelude.{◌≡◌};
ghost use Prim.Native.Nat.{◌*◌, ◌^◌, ◌≤◌, ◌<◌, compare};
ghost use Rattle.decimals.specs.Decimal.{to_nearest, figures_of, scale_of};

// The figures, and by which power of ten the number was multiplied to have them before the point.
#[derive(Clone, Copy)]
pub struct Rounded {
    pub figures: u64,
    pub place: u32,
}

// By long division: each turn multiplies q + r / 2 ^ p by ten, and loses nothing.
pub fn thirteen(a: u32, p: u32) -> Rounded
    requires a_nonzero { 0 < a }
    requires p_bound { p ≤ 60 }
    ensures { (result.figures ≡ figures_of a (2 ^ p)) × (result.place ≡ scale_of a (2 ^ p)) }
{
    let one: u64 = 1 << p;
    let mut q: u64 = a as u64 / one;
    let mut r: u64 = a as u64 % one;
    let mut k: u32 = 0;
    while q < 1000000000000 {
        let t = r * 10;
        q = q * 10 + t / one;
        r = t % one;
        k += 1;
    }
    let n = nearest(q, r, one);
    Rounded {
        figures: n,
        place: k,
    }
}

// q and r / one, to the nearest whole number: a half goes to the even one.
fn nearest(q: u64, r: u64, one: u64) -> u64
    requires q_bound { q < 18446744073709551615 }
    requires r_bound { r < 9223372036854775808 }
    ensures { result ≡ to_nearest q (compare (r * 2) one) }
{
    if r * 2 < one {
        q
    } else if r * 2 == one {
        q + q % 2
    } else {
        q + 1
    }
}
