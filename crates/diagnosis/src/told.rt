// What is told of a finding: the number of the test that failed, and its place.
ghost use Rattle.std.specs.Prelude.{◌≡◌};
ghost use Rattle.call_tests.specs.Lines.{lent_number, line_number, number_found, number_of, place_found, place_of};

use call_tests::{CallTest, Finding, LentTest, LineTest};

// The number that a call answers.
pub fn number_found(finding: Finding) -> u8
    ensures { result ≡ number_found finding }
{
    match finding {
        Err(test) => number_of(test),
        Ok(()) => 0,
    }
}

fn number_of(test: CallTest) -> u8
    ensures { result ≡ number_of test }
{
    match test {
        CallTest::Lent(t) => number_of_lent(t),
        CallTest::Sound(_) => 3,
        CallTest::Frame(t) => hdlc::number_of(t),
        CallTest::Line(t) => number_of_line(t),
        CallTest::Body(_) => 13,
    }
}

fn number_of_lent(test: LentTest) -> u8
    ensures { result ≡ lent_number test }
{
    match test {
        LentTest::ReplyRoom => 1,
        LentTest::GukLength | LentTest::AkLength | LentTest::ChallengeLength => 2,
    }
}

fn number_of_line(test: LineTest) -> u8
    ensures { result ≡ line_number test }
{
    match test {
        LineTest::EnvelopeShape | LineTest::EnvelopeTag => 6,
        LineTest::CounterWindow => 7,
        LineTest::LinkUpWithInformation
        | LineTest::P5HoldsV
        | LineTest::LinkDownWhileDown
        | LineTest::DataWhileDown => 10,
        LineTest::AarqNotAccepted => 11,
        LineTest::UnknownTag
        | LineTest::TagNotPermitted
        | LineTest::BitNotAgreed
        | LineTest::MalformedApdu
        | LineTest::NotTheChallenge => 12,
        LineTest::WrongProof => 13,
    }
}

// The byte at which the frame fails: of the frame's own tests alone.
pub fn place_found(finding: Finding, frame: &[u8]) -> Option<usize>
    ensures { result ≡ place_found finding frame.now }
{
    match finding {
        Err(CallTest::Frame(test)) => hdlc::place_of(test, frame),
        _ => None,
    }
}
