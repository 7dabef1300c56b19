// Envelopes of clients that cipher: shape, GCM tag and counter, then what they hold.
ghost use Rattle.std.specs.Prelude.{◌≡◌};
ghost use Rattle.cosem.specs.Requests.{read_action};
ghost use Rattle.material.specs.Material.{keys_of};
ghost use Rattle.line.specs.View.{line_of};
ghost use Rattle.body.specs.View.{body_of};
ghost use Rattle.protocol.specs.declared.Secrets.{Secrets as LentSecrets};
ghost use Rattle.protocol.specs.Clients.{lent_keys};
ghost use Rattle.call_tests.specs.Road.{answer_finds, challenge_finds, request_finds};
ghost use Rattle.diagnosis.specs.Promise.{OpensTo};

use crate::ready::Ready;
use crate::requests::ask;
use call_tests::{Finding, LineTest};
use cosem::{Reading, ServiceKind};
use envelope::{LONGEST_APDU, Opening, Unadmitted};
use line::LineState;
use material::ReadyKeys;
use model::{CipherClient, Client};

// The answer to the challenge, under GUK.
#[tactic(auto, unfolding(call_tests::specs::Road::challenge_finds))]
pub fn find_in_challenge(ready: Ready, client: CipherClient, apdu: &[u8]) -> Finding
    ensures { result ≡ challenge_finds (line_of ready.meter.line) ready.secrets apdu.now client }
{
    let line = ready.meter.line;
    let keys = association::lent_keys(ready.secrets);
    let mut text = [0u8; LONGEST_APDU];
    let opening = admit(line, client, keys, 0xCB, apdu, &mut text)?;
    find_in_answer(line, client, keys, opening.counter, &text[..opening.size])
}

// A request, under the dedicated key.
#[tactic(auto, unfolding(call_tests::specs::Road::request_finds))]
pub fn find_in_enclosed(
    ready: Ready,
    client: CipherClient,
    kind: ServiceKind,
    apdu: &[u8],
) -> Finding
    ensures { result ≡ request_finds (line_of ready.meter.line) (body_of ready.meter.body) ready.secrets.ak kind apdu.now client }
{
    let line = ready.meter.line;
    let keys = association::dedicated_keys(ready.secrets.ak, line, client);
    let tag = cosem::dedicated_tag(kind);
    let mut text = [0u8; LONGEST_APDU];
    let opening = admit(line, client, keys, tag, apdu, &mut text)?;
    ask(
        ready,
        Client::Ciphering(client),
        kind,
        &text[..opening.size],
    )
}

// An envelope with this tag, opened into the room. Line, client and keys stay apart, here and below: they are handed on one by one, to
// functions of the frame call that take them so.
fn admit(
    line: LineState,
    client: CipherClient,
    keys: ReadyKeys,
    tag: u8,
    apdu: &[u8],
    text: &mut [u8; LONGEST_APDU],
) -> Result<Opening, LineTest>
    ensures { OpensTo (line_of line) client (keys_of keys) tag apdu.now text.new result }
{
    envelope::read_shape(tag, apdu).ok_or(LineTest::EnvelopeShape)?;
    let pair = line::counters_of(line, client);
    let title = line::title_of(line, Client::Ciphering(client));
    match envelope::admit_envelope(keys, title, tag, pair, apdu, text) {
        Err(Unadmitted::Unopened) => Err(LineTest::EnvelopeTag),
        Err(Unadmitted::OutsideWindow) => Err(LineTest::CounterWindow),
        Ok(opening) => Ok(opening),
    }
}

// What the answer to the challenge holds.
fn find_in_answer(
    line: LineState,
    client: CipherClient,
    keys: ReadyKeys,
    counter: u32,
    text: &[u8],
) -> Finding
    ensures { (a : LentSecrets) → keys_of keys ≡ lent_keys a → result ≡ answer_finds (line_of line) a client counter text.now (read_action text.now) }
{
    let Some(Reading::Asks(request)) = cosem::read_action(text) else {
        return Err(LineTest::MalformedApdu.into());
    };
    if !association::is_challenge(client, text, request) {
        return Err(LineTest::NotTheChallenge.into());
    }
    if !association::proves_itself(line, client, keys, counter, text, request) {
        return Err(LineTest::WrongProof.into());
    }
    Ok(())
}
