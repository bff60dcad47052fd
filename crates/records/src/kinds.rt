// The eight kinds of string.

// Strings 1 to 5, the even and the odd strings of an almanac entry, and string 14 of frame 5.
#[derive(Clone, Copy)]
pub enum Kind {
    One,
    Two,
    Three,
    Four,
    Five,
    Even,
    Odd,
    Fourteen,
}
