// Replies, byte by byte; a mark, where a byte of the buffer behind the reply has not kept its value. A line has the source of
// the frame that is answered, and then what the reply goes by.
use hdlc::{FrameTest, Head};
use std::io;
use text::{Hex, byte, bytes_in, first};

// The room that a reply is lent.
const ROOM: usize = 24;

pub fn ua(printer: &impl Print, s: &[u8]) -> io::Result<()> {
    shown(printer, |out| hdlc_write::put_ua(out, received(s, 0x93)))
}

pub fn dm(printer: &impl Print, s: &[u8]) -> io::Result<()> {
    shown(printer, |out| hdlc_write::put_dm(out, received(s, 0x53)))
}

pub fn frmr(printer: &impl Print, s: &[u8]) -> io::Result<()> {
    shown(
        printer,
        |out| hdlc_write::put_frmr(out, received(s, byte(s, 3)), test_of(s)),
    )
}

// The test that failed, by the first letter of its name: over-length, short-information, wrong-source, or else unknown-control.
fn test_of(s: &[u8]) -> FrameTest {
    match text::letter(text::field(s, 4)) {
        b'o' => FrameTest::OverLength,
        b's' => FrameTest::ShortInformation,
        b'w' => FrameTest::WrongSource,
        _ => FrameTest::UnknownControl,
    }
}

pub fn data(printer: &impl Print, s: &[u8]) -> io::Result<()> {
    let mut room = [0u8; 8];
    let apdu = bytes_in(s, 3, &mut room);
    shown(printer, |out| {
        let start = hdlc_write::put_llc(out);
        let end = wire_write::put_all(out, start, apdu);
        hdlc_write::put_data(out, received(s, 0x13), end)
    })
}

fn received(s: &[u8], control: u8) -> Head {
    Head {
        destination: 0x03,
        source: byte(s, 2),
        control,
    }
}

// A reply, written into a room, and the mark.
fn shown<F: FnOnce(&mut [u8; ROOM]) -> usize>(printer: &impl Print, put: F) -> io::Result<()>
    requires { F.IsAlwaysCallable put }
{
    let mut out = [0xAAu8; ROOM];
    let count = put(&mut out);
    let kept = text::all_are(text::after(&out, count), 0xAA);
    print!(printer;
        "{}{}",
        Hex(first(&out, count)),
        if kept { "" } else { " !" }
    )
}
