// What a received frame is read as: its kind, the client and the three bytes of its head; or the number of its refusal, the
// test that failed, and the byte at which it failed.
use hdlc::{Frame, FrameTest, Head};
use model::Client;
use std::io;
use text::{Hex, bytes_in};

pub fn frame(printer: &impl Print, s: &[u8]) -> io::Result<()> {
    let mut room = [0u8; 800];
    let frame = bytes_in(s, 2, &mut room);
    match hdlc::read_frame(frame) {
        Frame::Unanswered(test) | Frame::Rejected(test, _) => refusal(printer, test, frame),
        Frame::LinkUp {
            client,
            head,
            information,
        } => kind(
            printer,
            if information {
                "link up with information"
            } else {
                "link up"
            },
            client,
            head,
        ),
        Frame::LinkDown { client, head } => kind(printer, "link down", client, head),
        Frame::Apdu {
            client,
            head,
            start,
            end,
        } => {
            kind(printer, "APDU", client, head)?;
            print!(printer; ", from {start} to {end}")
        }
    }
}

fn kind(printer: &impl Print, word: &str, client: Client, head: Head) -> io::Result<()> {
    let bytes = [head.destination, head.source, head.control];
    print!(printer; "{word}, {}, {}", letter_of(client), Hex(&bytes))
}

fn letter_of(client: Client) -> char {
    match client {
        Client::Verification => 'V',
        Client::Ciphering(_) => 'H',
    }
}

fn refusal(printer: &impl Print, test: FrameTest, frame: &[u8]) -> io::Result<()> {
    print!(printer; "{} {} ", hdlc::number_of(test), name_of(test))?;
    match hdlc::place_of(test, frame) {
        Some(at) => print!(printer; "{at}"),
        None => print!(printer; "-"),
    }
}

fn name_of(test: FrameTest) -> &'static str {
    match test {
        FrameTest::ShortFrame => "short-frame",
        FrameTest::FlagMissing => "flag-missing",
        FrameTest::FrameType => "frame-type",
        FrameTest::LengthMismatch => "length-mismatch",
        FrameTest::LengthEightOrNine => "length-8-or-9",
        FrameTest::WrongFcs => "wrong-FCS",
        FrameTest::WrongHcs => "wrong-HCS",
        FrameTest::EvenAddress => "even-address",
        FrameTest::FrmrReceived => "FRMR-received",
        FrameTest::OverLength => "over-length",
        FrameTest::SegmentBit => "segment-bit",
        FrameTest::PfClear => "PF-clear",
        FrameTest::WrongDestination => "wrong-destination",
        FrameTest::WrongSource => "wrong-source",
        FrameTest::UnknownControl => "unknown-control",
        FrameTest::LinkDownWithInformation => "link-down-with-information",
        FrameTest::ShortInformation => "short-information",
        FrameTest::WrongLlc => "wrong-LLC",
    }
}
