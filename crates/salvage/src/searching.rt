// Where a salvage goes on behind a field that is refused.
ghost use Rattle.std.specs.Prelude.{◌≡◌, ◌<◌, length};
ghost use Rattle.salvage.specs.Items.{resumes, next_place};

use fields::size_at;

// A good field stands here that ends the file, or behind which another stands.
pub fn goes_on(s: &[u8], at: usize) -> bool
    ensures { result ≡ resumes s.now at }
{
    let n = size_at(s, at);
    if n == 0 {
        return false;
    }
    let e = at + n;
    if e == s.len() {
        return true;
    }
    size_at(s, e) != 0
}

// The first such place after a refused one, or the end of the file.
pub(crate) fn next_place(s: &[u8], at: usize) -> usize
    requires { at < length s.now }
    ensures { result ≡ next_place s.now at }
{
    (at + 1..s.len())
        .find(|q| goes_on(s, *q))
        .unwrap_or(s.len())
}
