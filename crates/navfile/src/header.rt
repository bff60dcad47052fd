// The three lines of the header, written into a lent text from its start on.
ghost use Rattle.std.specs.Prelude.{◌≤◌, length};
ghost use Rattle.digits.specs.Text.{Puts};
ghost use Rattle.navfile.specs.Header.{header_bytes, header};

use digits::put;

pub fn put_header(text: &mut [u8]) -> usize
    requires { header_bytes ≤ length text.old }
    ensures { Puts text.old 0 header text.new result }
{
    let program = put(
        text,
        0,
        b"     2.11           G: GLONASS NAV DATA                     RINEX VERSION / TYPE\n",
    );
    let end = put(
        text,
        program,
        b"Spineyarrow                                                 PGM / RUN BY / DATE \n",
    );
    put(
        text,
        end,
        b"                                                            END OF HEADER       \n",
    )
}
