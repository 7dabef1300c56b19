// What is lent, and whether the state is sound: the tests before a frame is looked at.
ghost use Rattle.std.specs.Prelude.{◌≡◌, List, ℕ, Ok};
ghost use Rattle.model.specs.State.{Model};
ghost use Rattle.model.specs.Calls.{Lent};
ghost use Rattle.line.specs.View.{line_of};
ghost use Rattle.body.specs.View.{body_of};
ghost use Rattle.meter.specs.View.{view};
ghost use Rattle.call_tests.specs.Road.{body_state_finds, lent_finds, line_state_finds, rows_finds, state_finds, transfer_finds};
ghost use Rattle.p2.specs.Promise.{lent};

use body::BodyState;
use call_tests::{Finding, LentTest};
use line::LineState;
use meter::Meter;
use model::SoundnessTest;

// The reply room that a call asks for.
const REPLY_ROOM: usize = 779;

// What is lent, whatever the meter and the frame are.
pub fn find_lent(room: usize, guk: &[u8], ak: &[u8], challenge: &[u8]) -> Finding
    ensures { (m : Model) (f : List ℕ) → result ≡ lent_finds m (lent room guk.now ak.now challenge.now f) }
{
    if room < REPLY_ROOM {
        return Err(LentTest::ReplyRoom.into());
    }
    if guk.len() != 16 {
        return Err(LentTest::GukLength.into());
    }
    if ak.len() != 16 {
        return Err(LentTest::AkLength.into());
    }
    if challenge.len() != 8 {
        return Err(LentTest::ChallengeLength.into());
    }
    Ok(())
}

// The state: its body, then its line, then the transfer beside both.
pub fn find_unsound(meter: Meter) -> Finding
    ensures { (a : Lent) → result ≡ state_finds (view meter) a }
{
    find_in_body(meter.body)?;
    find_in_line(meter.line)?;
    find_in_transfer(meter.line, meter.body)
}

#[tactic(auto, unfolding(call_tests::specs::Road::body_state_finds, body::specs::View::body_of))]
fn find_in_body(body: BodyState) -> Finding
    ensures { result ≡ body_state_finds (body_of body) }
{
    if !store::registers_accepted(body.registers) {
        return Err(SoundnessTest::RegisterList.into());
    }
    if !store::columns_accepted(body.registers, body.columns) {
        return Err(SoundnessTest::ColumnList.into());
    }
    if !calendar::is_permitted(body.period) {
        return Err(SoundnessTest::PeriodPermitted.into());
    }
    if !calendar::is_valid(body.clock) {
        return Err(SoundnessTest::ClockValid.into());
    }
    find_in_rows(body)
}

// The rows. More than the array holds have no clocks, and so fail by these: the test of their count names no meter of the code's.
fn find_in_rows(body: BodyState) -> Finding
    ensures { result ≡ rows_finds (body_of body) }
{
    if 15 < body.rows.count || !store::clocks_valid(body.rows) {
        return Err(SoundnessTest::RowClocksValid.into());
    }
    if !store::cells_match(body.rows, body.columns.count) {
        return Err(SoundnessTest::RowCells.into());
    }
    Ok(())
}

#[tactic(auto, unfolding(call_tests::specs::Road::line_state_finds))]
fn find_in_line(line: LineState) -> Finding
    ensures { result ≡ line_state_finds (line_of line) }
{
    if !line::kinds_known(line) {
        return Err(SoundnessTest::AssociationKind.into());
    }
    if !line::links_stand(line) {
        return Err(SoundnessTest::AssociationOnLink.into());
    }
    if !line::services_offered(line) {
        return Err(SoundnessTest::AgreedServices.into());
    }
    Ok(())
}

// The transfer, of a body that passes its own tests.
#[tactic(auto, unfolding(call_tests::specs::Road::transfer_finds, body::specs::View::body_of))]
fn find_in_transfer(line: LineState, body: BodyState) -> Finding
    requires { body_state_finds (body_of body) ≡ Ok tt }
    ensures { result ≡ transfer_finds (line_of line) (body_of body) }
{
    if !meter::is_allowed(line, body.transfer)
        || !picks::rows_allow(body.rows, body.columns.count, body.transfer)
    {
        return Err(SoundnessTest::TransferPossible.into());
    }
    Ok(())
}
