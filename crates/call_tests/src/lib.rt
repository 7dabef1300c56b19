// The tests of a frame call: every test of documents 01 and 02 that a frame can fail, from the reply room to the number of a block,
// by its name. specs/ has what each looks at, their order and what is claimed of the first that fails; proofs/ has the proofs. The
// crate diagnosis has the functions that find it.
#![tactic(auto)]

ghost use Rattle.std.specs.Prelude.{◌≡◌};
ghost use Rattle.call_tests.specs.declared.CallTest.TheVariants.{Lent as OfLent, Sound as OfState, Frame as OfFrame, Line as OfLine, Body as OfBody};

use hdlc::FrameTest;
use model::SoundnessTest;

// What is lent: refusals 1 and 2.
#[derive(Clone, Copy)]
pub enum LentTest {
    ReplyRoom,
    GukLength,
    AkLength,
    ChallengeLength,
}

// Links, associations, envelopes and their counters: refusals 10, 12, 11, 6, 7, 12 again, and a proof's 13.
#[derive(Clone, Copy)]
pub enum LineTest {
    LinkUpWithInformation,
    P5HoldsV,
    LinkDownWhileDown,
    DataWhileDown,
    UnknownTag,
    TagNotPermitted,
    BitNotAgreed,
    AarqNotAccepted,
    EnvelopeShape,
    EnvelopeTag,
    CounterWindow,
    MalformedApdu,
    NotTheChallenge,
    WrongProof,
}

// A request for the body: refusal 13, in the order of its codes; then a numbered request.
#[derive(Clone, Copy)]
pub enum BodyTest {
    NameUnknown,
    ClassWrong,
    NotServed,
    ParameterShape,
    EntriesWrong,
    RangeWrong,
    AnswerTooLong,
    TransferEnded,
    NoTransfer,
    BlockNumber,
}

// A test of a frame call.
#[derive(Clone, Copy)]
pub enum CallTest {
    Lent(LentTest),
    Sound(SoundnessTest),
    Frame(FrameTest),
    Line(LineTest),
    Body(BodyTest),
}

// What a call comes to: the first test that it fails, or none.
pub type Finding = Result<(), CallTest>;

impl From<LentTest> for CallTest {
    ghost from_gives = { λ t c. c ≡ OfLent t };

    fn from(test: LentTest) -> CallTest {
        CallTest::Lent(test)
    }
}

impl From<SoundnessTest> for CallTest {
    ghost from_gives = { λ t c. c ≡ OfState t };

    fn from(test: SoundnessTest) -> CallTest {
        CallTest::Sound(test)
    }
}

impl From<FrameTest> for CallTest {
    ghost from_gives = { λ t c. c ≡ OfFrame t };

    fn from(test: FrameTest) -> CallTest {
        CallTest::Frame(test)
    }
}

impl From<LineTest> for CallTest {
    ghost from_gives = { λ t c. c ≡ OfLine t };

    fn from(test: LineTest) -> CallTest {
        CallTest::Line(test)
    }
}

impl From<BodyTest> for CallTest {
    ghost from_gives = { λ t c. c ≡ OfBody t };

    fn from(test: BodyTest) -> CallTest {
        CallTest::Body(test)
    }
}
