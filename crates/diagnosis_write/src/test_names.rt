// The names of the tests. A further test is a line more in its group.
ghost use Rattle.std.specs.Prelude.{◌≡◌};
ghost use Rattle.call_tests.specs.Lines.{lent_name, state_name, frame_name, line_name, body_name, name_of, name_found};

use call_tests::{BodyTest, CallTest, Finding, LentTest, LineTest};
use hdlc::FrameTest;
use model::SoundnessTest;

// The name of what was found of a call.
pub fn name_found(finding: Finding) -> &'static str
    ensures { result.now ≡ name_found finding }
{
    match finding {
        Err(test) => name_of(test),
        Ok(()) => "none",
    }
}

// The name of a test, by its group.
fn name_of(test: CallTest) -> &'static str
    ensures { result.now ≡ name_of test }
{
    match test {
        CallTest::Lent(t) => lent_name(t),
        CallTest::Sound(t) => state_name(t),
        CallTest::Frame(t) => frame_name(t),
        CallTest::Line(t) => line_name(t),
        CallTest::Body(t) => body_name(t),
    }
}

// Of what is lent.
fn lent_name(test: LentTest) -> &'static str
    ensures { result.now ≡ lent_name test }
{
    match test {
        LentTest::ReplyRoom => "reply-room",
        LentTest::GukLength => "GUK-length",
        LentTest::AkLength => "AK-length",
        LentTest::ChallengeLength => "challenge-length",
    }
}

// Of the soundness of the state.
fn state_name(test: SoundnessTest) -> &'static str
    ensures { result.now ≡ state_name test }
{
    match test {
        SoundnessTest::RegisterList => "register-list",
        SoundnessTest::ColumnList => "column-list",
        SoundnessTest::PeriodPermitted => "period",
        SoundnessTest::ClockValid => "clock",
        SoundnessTest::RowClocksValid => "row-clock",
        SoundnessTest::RowCount => "row-count",
        SoundnessTest::RowCells => "row-cells",
        SoundnessTest::AssociationKind => "association-kind",
        SoundnessTest::AssociationOnLink => "association-without-link",
        SoundnessTest::AgreedServices => "agreed-services",
        SoundnessTest::TransferPossible => "transfer",
    }
}

// Of the frame itself.
fn frame_name(test: FrameTest) -> &'static str
    ensures { result.now ≡ frame_name test }
{
    match test {
        FrameTest::ShortFrame => "short-frame",
        FrameTest::FlagMissing => "flag-missing",
        FrameTest::FrameType => "frame-type",
        FrameTest::LengthMismatch => "length-mismatch",
        FrameTest::LengthEightOrNine => "length-8-or-9",
        FrameTest::WrongFcs => "wrong-FCS",
        FrameTest::WrongHcs => "wrong-HCS",
        FrameTest::EvenAddress => "even-address",
        FrameTest::FrmrReceived => "FRMR-received",
        FrameTest::OverLength => "over-length",
        FrameTest::SegmentBit => "segment-bit",
        FrameTest::PfClear => "PF-clear",
        FrameTest::WrongDestination => "wrong-destination",
        FrameTest::WrongSource => "wrong-source",
        FrameTest::UnknownControl => "unknown-control",
        FrameTest::LinkDownWithInformation => "link-down-with-information",
        FrameTest::ShortInformation => "short-information",
        FrameTest::WrongLlc => "wrong-LLC",
    }
}

// Of links, associations and envelopes.
fn line_name(test: LineTest) -> &'static str
    ensures { result.now ≡ line_name test }
{
    match test {
        LineTest::LinkUpWithInformation => "link-up-with-information",
        LineTest::P5HoldsV => "P5-holds-V",
        LineTest::LinkDownWhileDown => "link-down-while-down",
        LineTest::DataWhileDown => "data-while-down",
        LineTest::UnknownTag => "unknown-tag",
        LineTest::TagNotPermitted => "tag-not-permitted",
        LineTest::BitNotAgreed => "bit-not-agreed",
        LineTest::AarqNotAccepted => "AARQ-not-accepted",
        LineTest::EnvelopeShape => "envelope-shape",
        LineTest::EnvelopeTag => "envelope-tag",
        LineTest::CounterWindow => "counter-window",
        LineTest::MalformedApdu => "malformed-APDU",
        LineTest::NotTheChallenge => "not-the-challenge",
        LineTest::WrongProof => "wrong-proof",
    }
}

// Of a request for the body.
fn body_name(test: BodyTest) -> &'static str
    ensures { result.now ≡ body_name test }
{
    match test {
        BodyTest::NameUnknown => "name-unknown",
        BodyTest::ClassWrong => "class-wrong",
        BodyTest::NotServed => "not-served",
        BodyTest::ParameterShape => "parameter-shape",
        BodyTest::EntriesWrong => "entries-wrong",
        BodyTest::RangeWrong => "range-wrong",
        BodyTest::AnswerTooLong => "answer-too-long",
        BodyTest::TransferEnded => "transfer-ended",
        BodyTest::NoTransfer => "no-transfer",
        BodyTest::BlockNumber => "block-number",
    }
}
