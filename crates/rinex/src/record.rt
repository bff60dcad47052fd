// One record of a satellite.
ghost use Rattle.std.specs.Prelude.{◌≡◌, length};
ghost use Rattle.rinex.specs.Record.{IsWritable, head_of, x_line, y_line, z_line, record_text};

use crate::epoch::{epoch_of, frame_time};
use crate::lines::{put_first, put_other};
use records::ImmediateWords;

// The four lines into the whole of out: N4 is string 5's, the carrier number the book's for n, whatever it is.
pub fn record_text(out: &mut [u8], words: ImmediateWords, n4: i32, carrier: i32)
    requires out_len { length out.old ≡ 320 }
    requires writable { IsWritable words n4 }
    ensures { out.new ≡ record_text words n4 carrier }
{
    put_head(&mut out[0..80], words, n4);
    put_x(&mut out[80..160], words);
    put_y(&mut out[160..240], words, carrier);
    put_z(&mut out[240..320], words);
}

// n, the epoch, minus tau, gamma and the message frame time.
fn put_head(out: &mut [u8], words: ImmediateWords, n4: i32)
    requires out_len { length out.old ≡ 80 }
    requires writable { IsWritable words n4 }
    ensures { out.new ≡ head_of words n4 }
{
    let four = words.four;
    let gamma = words.three.gamma;
    let e = epoch_of(n4 as u32, four.nt as u32, words.two.tb as u32);
    let time = frame_time(words.one.tk as u32);
    put_first(out, four.n as u32, e, four.tau, gamma, time);
}

// x, and the whole word B: the health.
fn put_x(out: &mut [u8], words: ImmediateWords)
    requires { length out.old ≡ 80 }
    ensures { out.new ≡ x_line words }
{
    let one = words.one;
    put_other(out, one.x, one.xvel, one.xacc, words.two.b);
}

// y, and the carrier number.
fn put_y(out: &mut [u8], words: ImmediateWords, carrier: i32)
    requires { length out.old ≡ 80 }
    ensures { out.new ≡ y_line words carrier }
{
    let two = words.two;
    put_other(out, two.y, two.yvel, two.yacc, carrier);
}

// z, and E: the age of the words.
fn put_z(out: &mut [u8], words: ImmediateWords)
    requires { length out.old ≡ 80 }
    ensures { out.new ≡ z_line words }
{
    let three = words.three;
    put_other(out, three.z, three.zvel, three.zacc, words.four.e);
}
