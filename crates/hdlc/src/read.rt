// A received frame read: the tests of document 01 in its order, then the control. `read_frame` tests that nine bytes are
// there, which a `Received` holds from there on.
ghost use Rattle.std.specs.Prelude.{◌≡◌, ◌+◌, ◌≤◌, ◌<◌, length, take, drop, Ok, Err, IfOk, IfErr};
ghost use Rattle.wire.specs.Numbers.{number_low};
ghost use Rattle.hdlc.specs.Layout.{format_of, head_of, information_of};
ghost use Rattle.hdlc.specs.Addresses.{sender_of};
ghost use Rattle.hdlc.specs.Tests.{fails, first_failing, meter_side, layout_tests, check_tests, header_tests, control_tests};
ghost use Rattle.hdlc.specs.Reading.{accepted_frame, read_frame, refused_frame};
ghost use Rattle.hdlc.specs.declared.FrameTest.TheVariants.{WrongFcs, WrongHcs};

use crate::{Frame, FrameTest, Head, number_of};
use model::{CipherClient, Client};

// The greatest length L of a frame that is taken.
const GREATEST_LENGTH: u16 = 777;

// A received frame with room for every field but HCS and information.
#[derive(Clone, Copy)]
struct Received<'a> {
    bytes: &'a [u8],
    ghost whole: { 9 ≤ length bytes.now },
}

// What a received frame is.
pub fn read_frame(frame: &[u8]) -> Frame
    ensures { result ≡ read_frame frame.now }
{
    if frame.len() < 9 {
        return Frame::Unanswered(FrameTest::ShortFrame);
    }
    let received = Received { bytes: frame };
    match received.tested() {
        Ok(accepted) => accepted,
        Err(test) => received.refused(test),
    }
}

impl Received<'_> {
    // What it is where it passes all tests; else the first that it fails.
    fn tested(&self) -> Result<Frame, FrameTest>
        ensures passed { IfOk result (λ accepted. read_frame self.now.bytes.now ≡ accepted) }
        ensures failed { IfErr result (λ test. read_frame self.now.bytes.now ≡ refused_frame self.now.bytes.now test) }
    {
        self.layout()?;
        self.checks()?;
        self.header()?;
        let client = sender(self.bytes[4]).ok_or(FrameTest::WrongSource)?;
        self.by_control(client)
    }

    // The flags, and what the format says.
    #[tactic(auto, unfolding(crate::specs::Tests::first_failing))]
    fn layout(&self) -> Result<(), FrameTest>
        ensures { result ≡ first_failing meter_side layout_tests self.now.bytes.now }
    {
        let count = self.bytes.len();
        if self.bytes[0] != 0x7E || self.bytes[count - 1] != 0x7E {
            return Err(FrameTest::FlagMissing);
        }
        let format = self.format();
        if format / 0x1000 != 0xA {
            return Err(FrameTest::FrameType);
        }
        let length = format % 0x800;
        if length as usize != count - 2 {
            return Err(FrameTest::LengthMismatch);
        }
        if length == 8 || length == 9 {
            return Err(FrameTest::LengthEightOrNine);
        }
        Ok(())
    }

    // Both checks, the low bits of the addresses, and the controls that FRMR has.
    #[tactic(auto, unfolding(crate::specs::Tests::first_failing))]
    fn checks(&self) -> Result<(), FrameTest>
        ensures { result ≡ first_failing meter_side check_tests self.now.bytes.now }
    {
        if self.fcs_wrong() {
            return Err(FrameTest::WrongFcs);
        }
        if self.hcs_wrong() {
            return Err(FrameTest::WrongHcs);
        }
        if self.bytes[3] % 2 == 0 || self.bytes[4] % 2 == 0 {
            return Err(FrameTest::EvenAddress);
        }
        if self.bytes[5] == 0x87 || self.bytes[5] == 0x97 {
            return Err(FrameTest::FrmrReceived);
        }
        Ok(())
    }

    // The length's limit, the segment bit, the P/F bit, and whether the frame is for the meter.
    #[tactic(auto, using(model::proofs::LimitFacts::greatest_length_lem), unfolding(crate::specs::Tests::first_failing))]
    fn header(&self) -> Result<(), FrameTest>
        ensures { result ≡ first_failing meter_side header_tests self.now.bytes.now }
    {
        let format = self.format();
        if GREATEST_LENGTH < format % 0x800 {
            return Err(FrameTest::OverLength);
        }
        if format / 0x800 % 2 == 1 {
            return Err(FrameTest::SegmentBit);
        }
        if self.bytes[5] / 0x10 % 2 == 0 {
            return Err(FrameTest::PfClear);
        }
        if self.bytes[3] != 0x03 {
            return Err(FrameTest::WrongDestination);
        }
        Ok(())
    }

    // A frame of a client by its control, or the first of the control's tests that it fails.
    #[tactic(auto, unfolding(crate::specs::Tests::first_failing, crate::specs::Reading::accepted_frame))]
    fn by_control(&self, client: Client) -> Result<Frame, FrameTest>
        ensures passed { IfOk result (λ accepted. (first_failing meter_side control_tests self.now.bytes.now ≡ Ok tt)
            × (accepted ≡ accepted_frame client self.now.bytes.now)) }
        ensures failed { IfErr result (λ test. first_failing meter_side control_tests self.now.bytes.now ≡ Err test) }
    {
        let head = self.head();
        let count = self.information_length();
        match self.bytes[5] {
            0x93 => Ok(Frame::LinkUp {
                client,
                head,
                information: 0 < count,
            }),
            0x53 if 0 < count => Err(FrameTest::LinkDownWithInformation),
            0x53 => Ok(Frame::LinkDown { client, head }),
            0x13 if count < 4 => Err(FrameTest::ShortInformation),
            0x13 if !wire::same(&self.bytes[8..11], b"\xE6\xE6\x00") => Err(FrameTest::WrongLlc),
            0x13 => Ok(Frame::Apdu {
                client,
                head,
                start: 11,
                end: self.bytes.len() - 3,
            }),
            _ => Err(FrameTest::UnknownControl),
        }
    }

    // A frame that a test refuses.
    #[tactic(auto, unfolding(crate::specs::Reading::refused_frame))]
    fn refused(&self, test: FrameTest) -> Frame
        ensures { result ≡ refused_frame self.now.bytes.now test }
    {
        if number_of(test) < 8 {
            Frame::Unanswered(test)
        } else {
            Frame::Rejected(test, self.head())
        }
    }

    // Addresses and control.
    fn head(&self) -> Head
        ensures { result ≡ head_of self.now.bytes.now }
    {
        Head {
            destination: self.bytes[3],
            source: self.bytes[4],
            control: self.bytes[5],
        }
    }

    // The two bytes of format, as a number.
    #[tactic(auto, using(crate::proofs::LayoutLaws::format_bytes))]
    fn format(&self) -> u16
        ensures { result ≡ format_of self.now.bytes.now }
    {
        u16::from_be_bytes([self.bytes[1], self.bytes[2]])
    }

    // How many bytes of information there are.
    #[tactic(auto, using(crate::proofs::LayoutLaws::information_length))]
    fn information_length(&self) -> usize
        ensures { result ≡ length (information_of self.now.bytes.now) }
    {
        self.bytes.len().saturating_sub(11)
    }

    // Whether the FCS is not the check of the bytes before it.
    #[tactic(auto, unfolding(crate::specs::Layout::fcs_of))]
    fn fcs_wrong(&self) -> bool
        ensures { result ≡ fails meter_side WrongFcs self.now.bytes.now }
    {
        let at = self.bytes.len() - 3;
        fcs::check(&self.bytes[1..at]) != self.check_at(at)
    }

    // Whether the HCS is not the check of the bytes before it, where the frame has one.
    #[tactic(auto, unfolding(crate::specs::Layout::hcs_of))]
    fn hcs_wrong(&self) -> bool
        ensures { result ≡ fails meter_side WrongHcs self.now.bytes.now }
    {
        8 < self.format() % 0x800 && fcs::check(&self.bytes[1..6]) != self.check_at(6)
    }

    // A check as it was received: two bytes, the low one first.
    fn check_at(&self, at: usize) -> u16
        requires { at + 2 ≤ length self.now.bytes.now }
        ensures { result ≡ number_low (take 2 (drop at self.now.bytes.now)) }
    {
        u16::from_le_bytes([self.bytes[at], self.bytes[at + 1]])
    }
}

// The client that has an address on the wire.
#[tactic(auto, unfolding(crate::specs::Addresses::sender_of))]
fn sender(address: u8) -> Option<Client>
    ensures { result ≡ sender_of address }
{
    match address {
        0x21 => Some(Client::Verification),
        0x27 => Some(Client::Ciphering(CipherClient::Han)),
        _ => None,
    }
}
