// What the name of a test tells: its refusal number in document 01, and the byte at which a frame fails it.
ghost use Rattle.std.specs.Prelude.{◌≡◌, cond, ◌-◌, ◌%◌, eqb, length};
ghost use Rattle.hdlc.specs.Layout.{flag, byte};
ghost use Rattle.hdlc.specs.Tests.{number_of, place_of};

use crate::FrameTest;

// The refusal that a test belongs to.
pub fn number_of(test: FrameTest) -> u8
    ensures { result ≡ number_of test }
{
    match test {
        FrameTest::ShortFrame
        | FrameTest::FlagMissing
        | FrameTest::FrameType
        | FrameTest::LengthMismatch
        | FrameTest::LengthEightOrNine
        | FrameTest::WrongFcs
        | FrameTest::WrongHcs
        | FrameTest::EvenAddress => 4,
        FrameTest::FrmrReceived => 5,
        FrameTest::OverLength => 8,
        FrameTest::SegmentBit
        | FrameTest::PfClear
        | FrameTest::WrongDestination
        | FrameTest::WrongSource
        | FrameTest::UnknownControl
        | FrameTest::LinkDownWithInformation
        | FrameTest::ShortInformation
        | FrameTest::WrongLlc => 9,
    }
}

// The first byte, counted from 0, of the field that fails the test; none for refusals 5 and 8.
pub fn place_of(test: FrameTest, frame: &[u8]) -> Option<usize>
    ensures { result ≡ place_of test frame.now }
{
    let place = match test {
        FrameTest::FrmrReceived | FrameTest::OverLength => return None,
        FrameTest::ShortFrame => 0,
        FrameTest::FlagMissing => missing_flag(frame),
        FrameTest::FrameType
        | FrameTest::LengthMismatch
        | FrameTest::LengthEightOrNine
        | FrameTest::SegmentBit => 1,
        FrameTest::WrongDestination => 3,
        FrameTest::WrongSource => 4,
        FrameTest::EvenAddress => even_address(frame),
        FrameTest::PfClear | FrameTest::UnknownControl => 5,
        FrameTest::WrongHcs => 6,
        FrameTest::LinkDownWithInformation | FrameTest::ShortInformation | FrameTest::WrongLlc => 8,
        FrameTest::WrongFcs => frame.len().saturating_sub(3),
    };
    Some(place)
}

// The first flag that is missing, where one is.
fn missing_flag(frame: &[u8]) -> usize
    ensures { result ≡ cond (eqb (byte frame.now 0) flag) (length frame.now - 1) 0 }
{
    match frame {
        [0x7E, ..] => frame.len() - 1,
        _ => 0,
    }
}

// The first address that is even, where one is.
fn even_address(frame: &[u8]) -> usize
    ensures { result ≡ cond (eqb (byte frame.now 3 % 2) 0) 3 4 }
{
    match frame.get(3) {
        Some(address) if address % 2 == 1 => 4,
        _ => 3,
    }
}
