// AARQ: V's is plain, that of a client that ciphers has its initiate request in an envelope.
ghost use Rattle.model.specs.declared.Client.TheVariants.{Ciphering};
ghost use Rattle.acse.specs.Aarq.{read_aarq};
ghost use Rattle.acse.specs.Initiate.{read_request};
ghost use Rattle.envelope.specs.Opening.{opened};
ghost use Rattle.line.specs.View.{line_of};
ghost use Rattle.protocol.specs.Clients.{ciphering, lent_keys, peer};
ghost use Rattle.protocol.specs.Rulings.{refused_aarq};
ghost use Rattle.protocol.specs.Decide.{accepted_ciphered, accepted_plain, associating, ciphered_from, enclosed, initiated, plain_from};
ghost use Rattle.replies.specs.Room.{HasRoom};
ghost use Rattle.ending.specs.Inner.{Tells, TellsWith};

use acse::{Aarq, InitiateRequest};
use ending::{Opened, Told};
use envelope::LONGEST_APDU;
use hdlc::Head;
use line::LineState;
use model::{CipherClient, Client};
use protocol::Secrets;

// An AARQ.
pub fn associate(
    line: LineState,
    secrets: Secrets,
    client: Client,
    head: Head,
    apdu: &[u8],
    out: &mut [u8],
) -> Told
    requires { HasRoom out.old }
    ensures { Tells (associating (line_of line) secrets client head apdu.now (read_aarq apdu.now client (peer client (line_of line)).title)) line out.old out.new result }
{
    let title = line::title_of(line, client);
    match acse::read_aarq(apdu, client, &title) {
        Some(Aarq::Plain { services }) => {
            let proposed = wire::array_at(apdu, services);
            accept_from(line, client, head, proposed, out)
        }
        Some(
            Aarq::Ciphered {
                challenge,
                envelope,
            },
        ) => {
            let theirs = wire::array_at(apdu, challenge);
            open_from(line, secrets, client, head, theirs, &apdu[envelope..], out)
        }
        None => reject_aarq(line, client, head, out),
    }
}

// The AARE that does not accept.
fn reject_aarq(line: LineState, client: Client, head: Head, out: &mut [u8]) -> Told
    requires { HasRoom out.old }
    ensures { Tells (refused_aarq client head (line_of line)) line out.old out.new result }
{
    let count = replies::send_rejected(out, head, client);
    Told {
        refusal: 11,
        count,
        line,
    }
}

// A plain AARQ: V's is accepted.
fn accept_from(
    line: LineState,
    client: Client,
    head: Head,
    proposed: [u8; 3],
    out: &mut [u8],
) -> Told
    requires { HasRoom out.old }
    ensures { Tells (plain_from (line_of line) client head proposed) line out.old out.new result }
{
    match client {
        Client::Verification => accept_plain(line, head, proposed, out),
        Client::Ciphering(_) => reject_aarq(line, client, head, out),
    }
}

// One with an envelope: that of a client that ciphers is opened.
fn open_from(
    line: LineState,
    secrets: Secrets,
    client: Client,
    head: Head,
    challenge: [u8; 8],
    envelope: &[u8],
    out: &mut [u8],
) -> Told
    requires { HasRoom out.old }
    ensures { Tells (ciphered_from (line_of line) secrets client head challenge envelope.now) line out.old out.new result }
{
    match client {
        Client::Verification => reject_aarq(line, client, head, out),
        Client::Ciphering(c) => open_request(line, secrets, c, head, challenge, envelope, out),
    }
}

// V is associated.
fn accept_plain(line: LineState, head: Head, proposed: [u8; 3], out: &mut [u8]) -> Told
    requires { HasRoom out.old }
    ensures { Tells (accepted_plain (line_of line) head proposed) line out.old out.new result }
{
    let agreed = acse::agreed(Client::Verification, proposed);
    let count = replies::send_accepted_plain(out, head, Client::Verification, line.title, agreed);
    Told {
        refusal: 0,
        count,
        line: association::associated_plain(line, agreed),
    }
}

// The envelope of the AARQ, with the client's challenge.
fn open_request(
    line: LineState,
    secrets: Secrets,
    client: CipherClient,
    head: Head,
    challenge: [u8; 8],
    envelope: &[u8],
    out: &mut [u8],
) -> Told
    requires { HasRoom out.old }
    ensures { Tells (enclosed (line_of line) secrets client head challenge (opened (lent_keys secrets) (ciphering client (line_of line)).peer.title 0x21 envelope.now)) line out.old out.new result }
{
    let keys = association::lent_keys(secrets);
    let title = line::title_of(line, Client::Ciphering(client));
    let mut text = [0u8; LONGEST_APDU];
    let Some(opening) = envelope::open_envelope(keys, title, 0x21, envelope, &mut text) else {
        return reject_aarq(line, Client::Ciphering(client), head, out);
    };
    let opened = Opened {
        client,
        keys,
        head,
        counter: opening.counter,
    };
    initiate(
        line,
        secrets,
        opened,
        challenge,
        &text[0..opening.size],
        out,
    )
}

// The opened initiate request, under the keys that opened it.
fn initiate(
    line: LineState,
    secrets: Secrets,
    opened: Opened,
    challenge: [u8; 8],
    text: &[u8],
    out: &mut [u8],
) -> Told
    requires { HasRoom out.old }
    ensures { TellsWith opened.keys secrets (initiated (line_of line) secrets opened.client opened.head challenge text.now opened.counter (read_request text.now)) line out.old out.new result }
{
    match acse::read_request(text) {
        Some(InitiateRequest { key, services }) => {
            let dedicated = wire::array_at(text, key);
            let proposed = wire::array_at(text, services);
            accept_ciphered(line, secrets, opened, challenge, dedicated, proposed, out)
        }
        None => { reject_aarq(line, Client::Ciphering(opened.client), opened.head, out) }
    }
}

// The client is pending: its counter becomes the last accepted, and the meter's next one is used.
fn accept_ciphered(
    line: LineState,
    secrets: Secrets,
    opened: Opened,
    challenge: [u8; 8],
    key: [u8; 16],
    proposed: [u8; 3],
    out: &mut [u8],
) -> Told
    requires { HasRoom out.old }
    ensures { TellsWith opened.keys secrets (accepted_ciphered (line_of line) secrets opened.client opened.head challenge key proposed opened.counter) line out.old out.new result }
{
    let client = opened.client;
    let asking = Client::Ciphering(client);
    let agreed = acse::agreed(asking, proposed);
    let held = line::counters_of(line, client);
    let next = counters::take(counters::accept(held, opened.counter));
    let ours = secrets.challenge;
    let count = replies::send_accepted_ciphered(
        out,
        opened.head,
        asking,
        opened.keys,
        line.title,
        ours,
        agreed,
        next.number,
    );
    Told {
        refusal: 0,
        count,
        line: association::pending(line, client, agreed, key, challenge, ours, next.counters),
    }
}
