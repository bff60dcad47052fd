// One window of a file. The work stays two of the longest fields away from its end, until the file ends.
ghost use Rattle.std.specs.Prelude.{◌≡◌, ◌+◌, ◌≤◌, ◌<◌, ◌^◌, length};
ghost use Rattle.windows.specs.declared.Stands.TheVariants.{Between, Since};
ghost use Rattle.windows.specs.Window.{longest, spare, goal_of, turn_at, Began, Stepped, Asks, Closes, Passes};

use crate::writing::{put_field, put_stretch};
use crate::{Stands, Turn, Wanted};
use fields::size_at;
use salvage::goes_on;

// Two of the longest fields, each of tag, length and 65,535 bytes: so far it looks ahead.
const AHEAD: usize = 131076;

// Room for the longest field and a line.
const SPARE: usize = 65580;

// Works on a window, whose first byte is the byte `first` of the file, from where the work stands. What
// is wanted of the items that it tells goes to the output.
pub fn salvage_window(
    wanted: Wanted,
    window: &[u8],
    last: bool,
    first: usize,
    stands: Stands,
    out: &mut [u8],
) -> Turn
    requires { (first + length window.now < 2 ^ 64) × Began stands first }
    ensures { Passes wanted window.now last first stands out.old result out.new }
{
    let goal = goal_of(last, window.len());
    let mut turn = Turn {
        passed: 0,
        written: 0,
        stands,
    };
    while turn.passed < goal && SPARE <= out.len() - turn.written {
        let next = step(wanted, window, first, turn, out);
        turn = next;
    }
    if last {
        close(wanted, window, first, turn, out)
    } else {
        turn
    }
}

// How far the work goes in a window of n bytes.
fn goal_of(ends: bool, n: usize) -> usize
    ensures { result ≡ goal_of ends n }
{
    if ends {
        n
    } else if n < AHEAD {
        0
    } else {
        n - AHEAD
    }
}

// A field is kept, a byte is skipped, or a stretch ends and the field behind it is kept.
fn step(wanted: Wanted, window: &[u8], first: usize, turn: Turn, out: &mut [u8]) -> Turn
    requires { Asks window.now first turn.passed turn.written spare out.old × Began turn.stands (first + turn.passed) }
    ensures { Stepped wanted window.now first turn out.old result out.new }
{
    let stands = turn.stands;
    match stands {
        Stands::Between => between(wanted, window, first, turn.passed, turn.written, out),
        Stands::Since(start) => {
            within(wanted, window, first, start, turn.passed, turn.written, out)
        }
    }
}

// Between two items: the field is kept where it is good, and a stretch begins where it is refused.
fn between(
    wanted: Wanted,
    window: &[u8],
    first: usize,
    at: usize,
    written: usize,
    out: &mut [u8],
) -> Turn
    requires { Asks window.now first at written longest out.old }
    ensures { Stepped wanted window.now first (turn_at at written Between) out.old result out.new }
{
    let n = size_at(window, at);
    if n == 0 {
        return Turn {
            passed: at + 1,
            written,
            stands: Stands::Since(first + at),
        };
    }
    let end = put_field(wanted, window, at, n, out, written);
    Turn {
        passed: at + n,
        written: end,
        stands: Stands::Between,
    }
}

// Within a stretch: it ends where the work may go on.
fn within(
    wanted: Wanted,
    window: &[u8],
    first: usize,
    start: usize,
    at: usize,
    written: usize,
    out: &mut [u8],
) -> Turn
    requires { Asks window.now first at written spare out.old × (start ≤ first + at) }
    ensures { Stepped wanted window.now first (turn_at at written (Since start)) out.old result out.new }
{
    if goes_on(window, at) {
        let end = put_stretch(wanted, start, first + at - start, out, written);
        between(wanted, window, first, at, end, out)
    } else {
        Turn {
            passed: at + 1,
            written,
            stands: Stands::Since(start),
        }
    }
}

// A stretch that comes to the end of the last window ends with the file.
fn close(wanted: Wanted, window: &[u8], first: usize, turn: Turn, out: &mut [u8]) -> Turn
    requires { (first + length window.now < 2 ^ 64) × ((turn.passed ≤ length window.now) × ((turn.written ≤ length out.old) × Began turn.stands (first + turn.passed))) }
    ensures { Closes wanted window.now first turn out.old result out.new }
{
    let stands = turn.stands;
    let Stands::Since(start) = stands else {
        return turn;
    };
    if turn.passed < window.len() {
        return turn;
    }
    if out.len() - turn.written < SPARE {
        return turn;
    }
    let end = put_stretch(
        wanted,
        start,
        first + turn.passed - start,
        out,
        turn.written,
    );
    Turn {
        passed: turn.passed,
        written: end,
        stands: Stands::Between,
    }
}
