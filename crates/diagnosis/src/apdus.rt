// An APDU: whether its link is up, what the association permits, then by its tag.
ghost use Rattle.std.specs.Prelude.{◌≡◌};
ghost use Rattle.cosem.specs.Tags.{tag_in};
ghost use Rattle.acse.specs.Aarq.{read_aarq};
ghost use Rattle.acse.specs.Initiate.{read_request};
ghost use Rattle.line.specs.View.{line_of};
ghost use Rattle.body.specs.View.{body_of};
ghost use Rattle.protocol.specs.Clients.{peer};
ghost use Rattle.call_tests.specs.Tests.{aarq_accepted, ciphered_accepted, initiate_accepted};
ghost use Rattle.call_tests.specs.Road.{aarq_finds, by_tag_finds, carried_finds, release_finds, tested_finds};
ghost use Rattle.diagnosis.specs.Promise.{cipher_client};

use crate::envelopes::{find_in_challenge, find_in_enclosed};
use crate::ready::Ready;
use crate::requests::ask;
use acse::Aarq;
use call_tests::{Finding, LineTest};
use cosem::Tag;
use envelope::LONGEST_APDU;
use model::{CipherClient, Client};

// An APDU of a client.
#[tactic(auto, unfolding(call_tests::specs::Road::carried_finds))]
pub fn carry(ready: Ready, client: Client, apdu: &[u8]) -> Finding
    ensures { result ≡ carried_finds (line_of ready.meter.line) (body_of ready.meter.body) ready.secrets client apdu.now }
{
    if !line::is_up(ready.meter.line, client) {
        return Err(LineTest::DataWhileDown.into());
    }
    converse(ready, client, apdu)
}

// One on a link that is up.
#[tactic(auto, unfolding(call_tests::specs::Road::tested_finds))]
fn converse(ready: Ready, client: Client, apdu: &[u8]) -> Finding
    ensures { result ≡ tested_finds (line_of ready.meter.line) client (tag_in apdu.now) (by_tag_finds (line_of ready.meter.line) (body_of ready.meter.body) ready.secrets client apdu.now (tag_in apdu.now)) }
{
    let line = ready.meter.line;
    let tag = cosem::tag_in(apdu);
    if association::is_unknown(tag) {
        return Err(LineTest::UnknownTag.into());
    }
    if !association::is_permitted(line, client, tag) {
        return Err(LineTest::TagNotPermitted.into());
    }
    if !association::is_bit_agreed(line, client, tag) {
        return Err(LineTest::BitNotAgreed.into());
    }
    by_tag(ready, client, apdu, tag)
}

// One by its tag. `converse` has found an unknown one before.
fn by_tag(ready: Ready, client: Client, apdu: &[u8], tag: Tag) -> Finding
    ensures { result ≡ by_tag_finds (line_of ready.meter.line) (body_of ready.meter.body) ready.secrets client apdu.now tag }
{
    match tag {
        Tag::Aarq => associate(ready, client, apdu),
        Tag::Rlrq => release(apdu),
        Tag::PlainRequest(kind) => ask(ready, client, kind, apdu),
        Tag::GlobalAction => find_in_challenge(ready, ciphering(client)?, apdu),
        Tag::DedicatedRequest(kind) => find_in_enclosed(ready, ciphering(client)?, kind, apdu),
        Tag::Unknown => Err(LineTest::UnknownTag.into()),
    }
}

// An AARQ.
#[tactic(auto, unfolding(call_tests::specs::Road::aarq_finds))]
fn associate(ready: Ready, client: Client, apdu: &[u8]) -> Finding
    ensures { result ≡ aarq_finds (line_of ready.meter.line) ready.secrets client apdu.now }
{
    if !is_aarq_accepted(ready, client, apdu) {
        return Err(LineTest::AarqNotAccepted.into());
    }
    Ok(())
}

fn is_aarq_accepted(ready: Ready, client: Client, apdu: &[u8]) -> bool
    ensures { result ≡ aarq_accepted (line_of ready.meter.line) ready.secrets client apdu.now (read_aarq apdu.now client (peer client (line_of ready.meter.line)).title) }
{
    let title = line::title_of(ready.meter.line, client);
    match acse::read_aarq(apdu, client, &title) {
        Some(Aarq::Plain { .. }) => !acse::ciphers(client),
        Some(Aarq::Ciphered { envelope, .. }) => {
            is_ciphered_accepted(ready, client, &apdu[envelope..])
        }
        None => false,
    }
}

// The envelope of an AARQ, which is that of a client that ciphers.
fn is_ciphered_accepted(ready: Ready, client: Client, envelope: &[u8]) -> bool
    ensures { result ≡ ciphered_accepted (line_of ready.meter.line) ready.secrets client envelope.now }
{
    let Client::Ciphering(_) = client else {
        return false;
    };
    let keys = association::lent_keys(ready.secrets);
    let title = line::title_of(ready.meter.line, client);
    let mut text = [0u8; LONGEST_APDU];
    let Some(opening) = envelope::open_envelope(keys, title, 0x21, envelope, &mut text) else {
        return false;
    };
    acse::read_request(&text[..opening.size]).is_some()
}

// RLRQ.
#[tactic(auto, unfolding(call_tests::specs::Road::release_finds))]
fn release(apdu: &[u8]) -> Finding
    ensures { result ≡ release_finds apdu.now }
{
    if !cosem::is_release(apdu) {
        return Err(LineTest::MalformedApdu.into());
    }
    Ok(())
}

// The client, which is to be one that ciphers: the tags of envelopes are for these.
fn ciphering(client: Client) -> Result<CipherClient, LineTest>
    ensures { result ≡ cipher_client client }
{
    match client {
        Client::Verification => Err(LineTest::TagNotPermitted),
        Client::Ciphering(c) => Ok(c),
    }
}
