// What a request asks, and the number of each, which stands here alone.
ghost use Rattle.requests.specs.Numbers.{Named};

#[derive(Clone, Copy)]
pub(crate) enum Request {
    FromRelative,
    ToRelative,
    Check,
    Read,
    Write,
    Offer,
    Reset,
    Immediate,
    Entry,
    Tallies,
    Health,
    Fresh,
    Block,
    Summary,
    // A word as a float, and the words and floats of strings 1 to 4.
    Float,
    Floats,
    Salvage,
    Navigation,
    Sky,
    Chip,
    Exchange,
    Join,
    EntryWords,
    // The words of string 5 and the carrier's number, from which a navigation record is written.
    Five,
    Carrier,
}

impl Request {
    pub(crate) fn from_number(number: u8) -> Option<Request>
        ensures { Named number result }
    {
        Some(match number {
            1 => Request::FromRelative,
            2 => Request::ToRelative,
            3 => Request::Check,
            4 => Request::Read,
            5 => Request::Write,
            6 => Request::Offer,
            7 => Request::Reset,
            8 => Request::Immediate,
            9 => Request::Entry,
            10 => Request::Tallies,
            11 => Request::Health,
            12 => Request::Fresh,
            13 => Request::Block,
            14 => Request::Summary,
            15 => Request::Float,
            16 => Request::Floats,
            17 => Request::Salvage,
            18 => Request::Navigation,
            19 => Request::Sky,
            20 => Request::Chip,
            21 => Request::Exchange,
            22 => Request::Join,
            23 => Request::EntryWords,
            24 => Request::Five,
            25 => Request::Carrier,
            _ => return None,
        })
    }
}
