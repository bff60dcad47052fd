// A torn file, salvaged with an output of so many bytes and a list of so many stretches.
ghost use Rattle.std.specs.Prelude.{◌≤◌, IfOk};

use crate::answers::{Unanswered, say_ok};
use crate::line::{Text, put_hex, put_next, put_number, put_text};
use salvage::{Full, end_number, salvage};

// The room of the output, that of the list, and the file, of which a line holds what can be told.
pub(crate) fn salvage_call(payload: &[u8], text: &mut Text) -> Result<usize, Unanswered>
    ensures { IfOk result (λ n. n ≤ 512) }
{
    let [room, stretches, file @ ..] = payload else {
        return Err(Unanswered::Bad);
    };
    if file.len() > 96 {
        return Err(Unanswered::Bad);
    }
    let mut out = [0u8; 255];
    let mut list = [0usize; 510];
    let told = *stretches as usize * 2;
    Ok(say_salvaged(text, file, &mut out[..*room as usize], &mut list[..told]))
}

// What is told of a salvage: its end, the bytes written and the stretches skipped.
fn say_salvaged(text: &mut Text, file: &[u8], out: &mut [u8], list: &mut [usize]) -> usize
    ensures { result ≤ 512 }
{
    let salvaged = salvage(file, out, list);
    let written = salvaged.written;
    let told = salvaged.stretches * 2;
    let ended = salvaged.ended;
    let end = say_ended(text, ended);
    let bytes = put_bytes(text, end, &out[0..written]);
    put_stretches(text, bytes, &list[0..told])
}

// `ok`, or `no N BYTE`.
fn say_ended(text: &mut Text, ended: Result<(), Full>) -> usize
    ensures { result ≤ 512 }
{
    match ended {
        Ok(()) => say_ok(text),
        Err(Full::Output(at)) => say_stopped(text, end_number(ended), at),
        Err(Full::List(at)) => say_stopped(text, end_number(ended), at),
    }
}

fn say_stopped(text: &mut Text, number: u8, at: usize) -> usize
    ensures { result ≤ 512 }
{
    let no = put_text(text, 0, b"no");
    let end = put_next(text, no, number as u64);
    put_next(text, end, at as u64)
}

// Behind a space; `-` for no byte.
fn put_bytes(text: &mut Text, at: usize, s: &[u8]) -> usize
    requires { at ≤ 512 }
    ensures { result ≤ 512 }
{
    if s.is_empty() {
        return put_text(text, at, b" -");
    }
    let space = put_text(text, at, b" ");
    put_hex(text, space, s)
}

// ` FIRST+COUNT` for each.
fn put_stretches(text: &mut Text, at: usize, list: &[usize]) -> usize
    requires { at ≤ 512 }
    ensures { result ≤ 512 }
{
    let mut to = at;
    for stretch in list.chunks_exact(2) {
        let first = put_next(text, to, stretch[0] as u64);
        let plus = put_text(text, first, b"+");
        to = put_number(text, plus, stretch[1] as u64);
    }
    to
}
