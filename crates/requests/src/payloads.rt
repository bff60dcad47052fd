// What stands in the payload of a request.
ghost use Rattle.std.specs.Prelude.{◌<◌};

use crate::answers::Unanswered;

// The bytes of a payload that has so many.
pub(crate) fn bytes<const N: usize>(payload: &[u8]) -> Result<[u8; N], Unanswered> {
    payload.try_into().map_err(|_| Unanswered::Bad)
}

// The first byte of a payload, and what stands behind it.
pub(crate) fn first(payload: &[u8]) -> Result<(u8, &[u8]), Unanswered> {
    let (byte, rest) = payload.split_first().ok_or(Unanswered::Bad)?;
    Ok((*byte, rest))
}

// A number in two bytes, the higher first.
pub(crate) fn pair(high: u8, low: u8) -> usize
    ensures { result < 65536 }
{
    usize::from(u16::from_be_bytes([high, low]))
}
