// The signed words of the eight kinds and their units (ICD Tables 4.5 and 4.9), numbered from 1.
ghost use Rattle.std.specs.Prelude.{◌≤◌};
ghost use Rattle.scaled.specs.Units.{IsListed};

use records::Kind;

// A signed word: its kind, its place in that kind, and its unit 2 ^ -unit.
#[derive(Clone, Copy)]
pub struct SignedWord(pub Kind, pub usize, pub u32);

const WORDS: [SignedWord; 22] = [
    SignedWord(Kind::One, 2, 20), // x velocity, km/s
    SignedWord(Kind::One, 3, 30), // x acceleration, km/s^2
    SignedWord(Kind::One, 4, 11), // x, km
    SignedWord(Kind::Two, 3, 20), // y velocity, km/s
    SignedWord(Kind::Two, 4, 30), // y acceleration, km/s^2
    SignedWord(Kind::Two, 5, 11), // y, km
    SignedWord(Kind::Three, 1, 40), // gamma, dimensionless
    SignedWord(Kind::Three, 4, 20), // z velocity, km/s
    SignedWord(Kind::Three, 5, 30), // z acceleration, km/s^2
    SignedWord(Kind::Three, 6, 11), // z, km
    SignedWord(Kind::Four, 0, 30), // tau, s
    SignedWord(Kind::Four, 1, 30), // delta tau, s
    SignedWord(Kind::Five, 1, 31), // tau c, s
    SignedWord(Kind::Five, 3, 30), // tau GPS, s
    SignedWord(Kind::Even, 3, 18), // tau A, s
    SignedWord(Kind::Even, 4, 20), // lambda, half cycles
    SignedWord(Kind::Even, 5, 20), // delta i, half cycles
    SignedWord(Kind::Odd, 0, 15), // omega, half cycles
    SignedWord(Kind::Odd, 2, 9), // delta T, s/orbit
    SignedWord(Kind::Odd, 3, 14), // delta T rate, s/orbit^2
    SignedWord(Kind::Fourteen, 0, 10), // B1, s
    SignedWord(Kind::Fourteen, 1, 16), // B2, s/day
];

// The word of a number, 1 to 22.
pub fn signed_word(number: u8) -> SignedWord
    requires { (1 ≤ number) × (number ≤ 22) }
    ensures { IsListed number result }
{
    WORDS[(number - 1) as usize]
}
