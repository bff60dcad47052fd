// A string read, its words read and written. Each answers the numbers of the call that it
// makes, in one.
ghost use Rattle.std.specs.Prelude.{◌≡◌, [], ◌∷◌};
ghost use Rattle.relative.specs.Calls.{decoded_paper};
ghost use Rattle.told.specs.Told.{packed};
ghost use Rattle.layout.specs.Layout.{kind_number};
ghost use Rattle.measured.specs.Parts.{TellsRelative, kind_by, TellsRead, TellsWrite};

use records::Kind;
use relative::{Polarity, polarity_number};
use strings::Refusal;
use told::{refusal_told, written_told};

#[unsafe(no_mangle)]
pub extern "C" fn measured_relative(s: &[u8], out: &mut [u8]) -> u64
    ensures { TellsRelative s.now out.old result out.new }
{
    decoded_told(relative::from_relative(s, out))
}

// Reads the words of a kind, 1 to 8, into eight places.
#[unsafe(no_mangle)]
pub extern "C" fn measured_read(s: &[u8], kind: u8, out: &mut [i32; 8]) -> u64
    ensures { TellsRead s.now kind out.old result out.new }
{
    let read = words::read_words(s, kind_by(kind));
    match read {
        Err(why) => refusal_told(why) as u64,
        Ok((m, r)) => {
            *out = records::list_of(r);
            read_told(m, number_of(records::kind_of(r)))
        }
    }
}

// Writes the string of m and of the words of a kind.
#[unsafe(no_mangle)]
pub extern "C" fn measured_write(m: u8, kind: u8, v: &[i32; 8], out: &mut [u8]) -> u64
    ensures { TellsWrite m kind v.now out.old result out.new }
{
    let r = records::record_of(kind_by(kind), *v);
    written_told(words::write_words(m, r, out))
}

fn kind_by(n: u8) -> Kind
    ensures { result ≡ kind_by n }
{
    match n {
        1 => Kind::One,
        2 => Kind::Two,
        3 => Kind::Three,
        4 => Kind::Four,
        5 => Kind::Five,
        6 => Kind::Even,
        7 => Kind::Odd,
        _ => Kind::Fourteen,
    }
}

fn number_of(k: Kind) -> u8
    ensures { result ≡ kind_number k }
{
    match k {
        Kind::One => 1,
        Kind::Two => 2,
        Kind::Three => 3,
        Kind::Four => 4,
        Kind::Five => 5,
        Kind::Even => 6,
        Kind::Odd => 7,
        Kind::Fourteen => 8,
    }
}

// What a reader answers that is not refused: 0, m and the kind.
fn read_told(m: u8, kind: u8) -> u64
    ensures { result ≡ packed (0 ∷ m ∷ kind ∷ []) }
{
    256 * (m as u64) + 65536 * (kind as u64)
}

// What a relative reading answers: 0 and the polarity, or the refusal's numbers.
fn decoded_told(d: Result<Polarity, Refusal>) -> u64
    ensures { result ≡ packed (decoded_paper d) }
{
    match d {
        Ok(p) => 256 * (polarity_number(p) as u64),
        Err(why) => refusal_told(why) as u64,
    }
}
