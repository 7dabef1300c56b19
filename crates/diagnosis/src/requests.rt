// Requests for the body: what they come to, by its result code; and numbered requests, by the transfer.
ghost use Rattle.std.specs.Prelude.{◌≡◌, List, ℕ};
ghost use Rattle.model.specs.declared.Name.{Name as ModelName};
ghost use Rattle.model.specs.Codes.{code_of};
ghost use Rattle.model.specs.State.{Body, Transfer as ModelTransfer};
ghost use Rattle.model.specs.Objects.{action, get};
ghost use Rattle.cosem.specs.Requests.{read_service, requested, service_in};
ghost use Rattle.line.specs.View.{line_of};
ghost use Rattle.body.specs.View.{body_of};
ghost use Rattle.protocol.specs.Clients.{blocks_in, selective_in};
ghost use Rattle.objects.specs.Meanings.{found_as, request_as};
ghost use Rattle.objects.specs.Picks.{parameter_in, selection_in};
ghost use Rattle.picks.specs.Transfers.{transfer_of};
ghost use Rattle.results.specs.Results.{invoked_as, outcome_as};
ghost use Rattle.call_tests.specs.declared.BodyTest.TheVariants.{EntriesWrong};
ghost use Rattle.call_tests.specs.Road.{asked_finds, body_finds, code_test, number_finds, result_finds, selector_wrong, service_finds};

use crate::ready::Ready;
use call_tests::{BodyTest, Finding, LineTest};
use cosem::{Asked, Reading, ServiceKind, Wanted};
use model::{Client, Denial};
use objects::{Query, Selector, Served};
use picks::{Progress, Transfer};
use results::Outcome;

// An APDU or an opened text that is to be a request of this kind.
#[tactic(auto, unfolding(body::specs::View::body_of))]
pub fn ask(ready: Ready, client: Client, kind: ServiceKind, apdu: &[u8]) -> Finding
    ensures { result ≡ asked_finds (line_of ready.meter.line) (body_of ready.meter.body) client apdu.now (read_service kind apdu.now) }
{
    let line = ready.meter.line;
    let reading = cosem::read_service(kind, apdu);
    match reading {
        Some(Reading::Asks(request)) => find_in_request(ready, client, apdu, request),
        Some(Reading::GoesOn { number, .. }) => {
            if !association::are_blocks_agreed(line, client) {
                return Err(LineTest::MalformedApdu.into());
            }
            find_in_number(ready.meter.body.transfer, number)
        }
        None => Err(LineTest::MalformedApdu.into()),
    }
}

// A request, as the body would answer it.
fn find_in_request(ready: Ready, client: Client, apdu: &[u8], asked: Asked) -> Finding
    ensures { result ≡ body_finds (body_of ready.meter.body) (requested client (selective_in client (line_of ready.meter.line)) (blocks_in client (line_of ready.meter.line)) apdu.now asked) }
{
    let line = ready.meter.line;
    let name = cosem::name_in(apdu);
    let query = Query {
        client,
        invoke: asked.invoke,
        selective: association::is_selective(line, client),
        blocks: association::are_blocks_agreed(line, client),
        class: asked.class,
        name,
    };
    let found = objects::find(client, name, ready.meter.body.registers);
    find_in_wanted(ready, found, query, asked.wanted, apdu)
}

// What it asks of what was found.
fn find_in_wanted(
    ready: Ready,
    found: Option<Served>,
    query: Query,
    wanted: Wanted,
    apdu: &[u8],
) -> Finding
    ensures { result ≡ service_finds (request_as query (service_in apdu.now wanted)) (body_of ready.meter.body) (found_as query.name found) (service_in apdu.now wanted) }
{
    match wanted {
        Wanted::Read { attribute } => find_in_get(ready, found, query, attribute, None, apdu),
        Wanted::ReadSelected {
            attribute,
            selector: number,
            at,
        } => {
            let selector = Selector { number, at };
            find_in_get(ready, found, query, attribute, Some(selector), apdu)
        }
        Wanted::Invoke { method } => find_in_action(found, query, method, None, apdu),
        Wanted::InvokeWith { method, at } => {
            find_in_action(found, query, method, Some(at), apdu)
        }
    }
}

// GET of an attribute of what was found.
fn find_in_get(
    ready: Ready,
    found: Option<Served>,
    query: Query,
    attribute: u8,
    selector: Option<Selector>,
    apdu: &[u8],
) -> Finding
    ensures { result ≡ service_finds (request_as query (get attribute (selection_in apdu.now selector))) (body_of ready.meter.body) (found_as query.name found) (get attribute (selection_in apdu.now selector)) }
{
    let outcome = results::read_attribute(
        ready.meter.body,
        found,
        query,
        attribute,
        selector,
        apdu,
    );
    find_in_outcome(outcome, selector_wrong(selector))
}

// ACTION on a method of what was found; none answers 13.
fn find_in_action(
    found: Option<Served>,
    query: Query,
    method: u8,
    argument: Option<usize>,
    apdu: &[u8],
) -> Finding
    ensures { (b : Body) → result ≡ service_finds (request_as query (action method (parameter_in apdu.now argument))) b (found_as query.name found) (action method (parameter_in apdu.now argument)) }
{
    results::invoke_method(found, query, method, argument, apdu).map_err(|denial| code_test(
        BodyTest::EntriesWrong,
        denial,
    ).into())
}

// Granted, whole or in blocks, or denied. Code 13 is that of this test.
fn find_in_outcome(outcome: Result<Outcome, Denial>, thirteen: BodyTest) -> Finding
    ensures { (x : ModelTransfer) (n : ModelName) (b : Body) → result ≡ result_finds thirteen (outcome_as x n b outcome) }
{
    outcome.map_err(|denial| code_test(thirteen, denial))?;
    Ok(())
}

// The test of a denial, where that of code 13 is this one.
#[tactic(auto, unfolding(call_tests::specs::Road::code_test))]
fn code_test(thirteen: BodyTest, denial: Denial) -> BodyTest
    ensures { result ≡ code_test thirteen (code_of denial) }
{
    match denial {
        Denial::NameUnknown => BodyTest::NameUnknown,
        Denial::ClassWrong => BodyTest::ClassWrong,
        Denial::NotServed => BodyTest::NotServed,
        Denial::ShapeWrong => BodyTest::ParameterShape,
        Denial::RowsWrong => thirteen,
        Denial::AnswerTooLong => BodyTest::AnswerTooLong,
    }
}

// Which test code 13 belongs to.
fn selector_wrong(selector: Option<Selector>) -> BodyTest
    ensures { (s : List ℕ) → result ≡ selector_wrong (selection_in s selector) }
{
    match selector {
        Some(Selector { number: 1, .. }) => BodyTest::RangeWrong,
        _ => BodyTest::EntriesWrong,
    }
}

// A request for the next block after that of this number.
#[tactic(auto, unfolding(picks::specs::Transfers::transfer_of))]
fn find_in_number(transfer: Transfer, number: u32) -> Finding
    ensures { result ≡ number_finds number (transfer_of transfer) }
{
    match transfer.progress {
        Progress::Idle => Err(BodyTest::NoTransfer.into()),
        Progress::Running => {
            if number != transfer.block {
                return Err(BodyTest::BlockNumber.into());
            }
            Ok(())
        }
        Progress::Ended => Err(BodyTest::TransferEnded.into()),
    }
}
