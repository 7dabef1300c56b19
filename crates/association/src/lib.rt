// The clients on the line in code: what a client's association permits, its keys, in `challenge` whether it proves itself, and in
// `change` what the line becomes (document 01, "The association"). Each answers for every line; crate protocol says what each
// means.
#![tactic(auto)]

mod challenge;
mod change;

ghost use Rattle.std.specs.Prelude.{◌≡◌, List, ℕ};
ghost use Rattle.material.specs.Material.{keys_of};
ghost use Rattle.line.specs.View.{association_of, line_of};
ghost use Rattle.protocol.specs.Clients.{agreed_in, bit_agreed, blocks_in, dedicated_keys, is_unknown, lent_keys, may_ask_enclosed, may_ask_plain, peer, permitted, selective_in, service_agreed};
ghost use Rattle.protocol.specs.Decide.{held_by_p5};
ghost use Rattle.association.specs.Lent.{secrets_in};

pub use challenge::{is_challenge, proves_itself};
pub use change::{associated_ciphered, associated_plain, ended, pending, with_counters, with_link};
use cosem::{ServiceKind, Tag};
use line::{LineState, Phase, agreed_in, key_in, party_of};
use material::ReadyKeys;
use model::{CipherClient, Client};
use protocol::Secrets;

// Whether P5 holds the client.
#[tactic(auto, unfolding(line::specs::View::line_of))]
pub fn is_held_by_p5(line: LineState, client: Client) -> bool
    ensures { result ≡ held_by_p5 client (line_of line) }
{
    matches!(client, Client::Verification) && line.p5
}

// Whether the tag is none of those that a client may send.
pub fn is_unknown(tag: Tag) -> bool
    ensures { result ≡ is_unknown tag }
{
    matches!(tag, Tag::Unknown)
}

// Whether the client may send the tag as its association stands.
pub fn is_permitted(line: LineState, client: Client, tag: Tag) -> bool
    ensures { result ≡ permitted client (peer client (line_of line)).association tag }
{
    permits(party_of(line, client).phase, client, tag)
}

// With no association an AARQ, with one the release; while it is pending the challenge of a client that ciphers, and when it
// is associated the requests.
fn permits(phase: Phase, client: Client, tag: Tag) -> bool
    ensures { (a k c s : List ℕ) → result ≡ permitted client (association_of phase a k c s) tag }
{
    match (phase, tag) {
        (Phase::Idle, Tag::Aarq) => true,
        (Phase::Pending | Phase::Associated, Tag::Rlrq) => true,
        (Phase::Pending, Tag::GlobalAction) => acse::ciphers(client),
        (Phase::Associated, Tag::PlainRequest(kind)) => may_ask_plain(client, kind),
        (Phase::Associated, Tag::DedicatedRequest(kind)) => may_ask_enclosed(client, kind),
        _ => false,
    }
}

// Of a client that does not cipher, GET.
fn may_ask_plain(client: Client, kind: ServiceKind) -> bool
    ensures { result ≡ may_ask_plain client kind }
{
    matches!(kind, ServiceKind::Get) && !acse::ciphers(client)
}

// Of one that does, GET and ACTION.
fn may_ask_enclosed(client: Client, kind: ServiceKind) -> bool
    ensures { result ≡ may_ask_enclosed client kind }
{
    matches!(kind, ServiceKind::Get | ServiceKind::Action) && acse::ciphers(client)
}

// Whether the service that the tag needs is agreed.
pub fn is_bit_agreed(line: LineState, client: Client, tag: Tag) -> bool
    ensures { result ≡ bit_agreed (agreed_in (peer client (line_of line)).association) tag }
{
    match tag {
        Tag::PlainRequest(kind) | Tag::DedicatedRequest(kind) => {
            is_agreed(agreed_in(line, client), kind)
        }
        Tag::Aarq | Tag::Rlrq | Tag::GlobalAction | Tag::Unknown => true,
    }
}

// Whether the service is among these.
fn is_agreed(agreed: [u8; 3], kind: ServiceKind) -> bool
    ensures { result ≡ service_agreed agreed kind }
{
    match kind {
        ServiceKind::Get => line::is_within([0x00, 0x00, 0x10], agreed),
        ServiceKind::Set => true,
        ServiceKind::Action => line::is_within([0x00, 0x00, 0x01], agreed),
    }
}

// Whether selective access is agreed. This and the next have names of their own, each a line over `is_within`: their clauses do, too.
pub fn is_selective(line: LineState, client: Client) -> bool
    ensures { result ≡ selective_in client (line_of line) }
{
    line::is_within([0x00, 0x00, 0x04], agreed_in(line, client))
}

// Whether block transfer is agreed.
pub fn are_blocks_agreed(line: LineState, client: Client) -> bool
    ensures { result ≡ blocks_in client (line_of line) }
{
    line::is_within([0x00, 0x10, 0x00], agreed_in(line, client))
}

// What is lent, as arrays; zeros where there are fewer bytes.
pub fn secrets_of(guk: &[u8], ak: &[u8], challenge: &[u8]) -> Secrets
    ensures { result ≡ secrets_in guk.now ak.now challenge.now }
{
    Secrets {
        guk: wire::array_at(guk, 0),
        ak: wire::array_at(ak, 0),
        challenge: wire::array_at(challenge, 0),
    }
}

// The keys around an association's messages, made ready.
pub fn lent_keys(secrets: Secrets) -> ReadyKeys
    ensures { keys_of result ≡ lent_keys secrets }
{
    material::ready_keys(secrets.guk, secrets.ak)
}

// The keys around requests and their answers, made ready.
pub fn dedicated_keys(ak: [u8; 16], line: LineState, client: CipherClient) -> ReadyKeys
    ensures { keys_of result ≡ dedicated_keys ak client (line_of line) }
{
    material::ready_keys(key_in(line, client), ak)
}
