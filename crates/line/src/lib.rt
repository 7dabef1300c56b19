// The line, which decides on frames: links, associations, counters, keys and titles. Its part of soundness, a new one, what
// power-up leaves of it, and the line with zeros wherever it holds nothing; in `clients`, what it tells of a client.
#![tactic(auto)]

mod clients;

ghost use Rattle.std.specs.Prelude.{◌≡◌, List, ℕ};
ghost use Rattle.model.specs.Services.{within};
ghost use Rattle.model.specs.Soundness.{agreed_within, kinds_known, links_stand, on_link, services_offered, line_sound};
ghost use Rattle.line.specs.Canonical.{cleared_cipher_party, cleared_line, cleared_party, while_pending, while_standing};
ghost use Rattle.line.specs.Left.{Restarted, resting_cipher, resting_party, started_line};
ghost use Rattle.line.specs.View.{association_of, line_of, new_line, peer_of};

pub use clients::{
    agreed_in, cipher_of, client_challenge, counters_of, has_agreed, is_up, key_in,
    meter_challenge, party_of, takes_blocks, title_of, with_cipher, with_verification,
};
use model::Counters;

// How far an association has come.
#[derive(Clone, Copy, PartialEq, Eq)]
pub enum Phase {
    Idle,
    Pending,
    Associated,
}

// A client of the link: its title, whether its link is up, its association and the services agreed in it. What an association holds
// stands beside its phase, and not in it: Wiped of specs/Left says of these fields that nothing is left in them.
#[derive(Clone, Copy)]
pub struct Party {
    pub title: [u8; 8],
    pub up: bool,
    pub phase: Phase,
    pub agreed: [u8; 3],
}

// A client that ciphers: its dedicated key, its challenge and the meter's, and the counters.
#[derive(Clone, Copy)]
pub struct CipherParty {
    pub party: Party,
    pub key: [u8; 16],
    pub client: [u8; 8],
    pub meter: [u8; 8],
    pub counters: Counters,
}

// What decides on frames: the meter's title, the clients V and H, and the P5 flag.
#[derive(Clone, Copy)]
pub struct LineState {
    pub title: [u8; 8],
    pub verification: Party,
    pub han: CipherParty,
    pub p5: bool,
}

// Whether the line passes its tests.
pub fn is_line_sound(line: LineState) -> bool
    ensures { result ≡ line_sound (line_of line) }
{
    kinds_known(line) && links_stand(line) && services_offered(line)
}

// V's association is none or associated; H's may be pending, too.
#[tactic(auto, unfolding(crate::specs::View::line_of))]
pub fn kinds_known(line: LineState) -> bool
    ensures { result ≡ kinds_known (line_of line) }
{
    line.verification.phase != Phase::Pending
}

#[tactic(auto, unfolding(crate::specs::View::line_of))]
pub fn links_stand(line: LineState) -> bool
    ensures { result ≡ links_stand (line_of line) }
{
    on_link(line.verification) && on_link(line.han.party)
}

#[tactic(auto, unfolding(crate::specs::View::line_of))]
pub fn services_offered(line: LineState) -> bool
    ensures { result ≡ services_offered (line_of line) }
{
    agreed_within(line.verification, [0x00, 0x00, 0x14])
        && agreed_within(line.han.party, [0x00, 0x10, 0x15])
}

// No association stands on a link that is down.
fn on_link(p: Party) -> bool
    ensures { (k c s : List ℕ) → result ≡ on_link (peer_of p k c s) }
{
    p.up || p.phase == Phase::Idle
}

// The agreed services lie within those offered, where an association stands.
fn agreed_within(p: Party, offered: [u8; 3]) -> bool
    ensures { (k c s : List ℕ) → result ≡ agreed_within offered (association_of p.phase p.agreed k c s) }
{
    p.phase == Phase::Idle || is_within(p.agreed, offered)
}

// Each bit of the first lies in the second.
pub fn is_within(a: [u8; 3], o: [u8; 3]) -> bool
    ensures { result ≡ within a o }
{
    a[0] & o[0] == a[0] && a[1] & o[1] == a[1] && a[2] & o[2] == a[2]
}

// A line of these titles, with links down and no associations.
pub fn new_line(title: [u8; 8], verification: [u8; 8], han: [u8; 8]) -> LineState
    ensures { line_of result ≡ new_line title verification han }
{
    started(title, verification, han, false)
}

// Links and associations end and counters are cleared; an ended association leaves nothing in its fields.
pub fn powered_up(line: LineState) -> LineState
    ensures { Restarted line result }
{
    started(
        line.title,
        line.verification.title,
        line.han.party.title,
        line.p5,
    )
}

// A line of these titles on which nothing has happened.
#[tactic(auto, unfolding(crate::specs::Left::started_line))]
fn started(title: [u8; 8], verification: [u8; 8], han: [u8; 8], p5: bool) -> LineState
    ensures { result ≡ started_line title verification han p5 }
{
    let counters = Counters {
        accepted: 0,
        sent: 0,
    };
    LineState {
        title,
        verification: resting(verification, false),
        han: resting_cipher(han, false, counters),
        p5,
    }
}

// A client without an association, and nothing left of one.
pub fn resting(title: [u8; 8], up: bool) -> Party
    ensures { result ≡ resting_party title up }
{
    Party {
        title,
        up,
        phase: Phase::Idle,
        agreed: [0u8; 3],
    }
}

// Such a client that ciphers: it keeps its counters.
pub fn resting_cipher(title: [u8; 8], up: bool, counters: Counters) -> CipherParty
    ensures { result ≡ resting_cipher title up counters }
{
    CipherParty {
        party: resting(title, up),
        key: [0u8; 16],
        client: [0u8; 8],
        meter: [0u8; 8],
        counters,
    }
}

// The line with zeros in the fields of an association that has ended, or is no longer pending.
#[tactic(auto, unfolding(crate::specs::Canonical::cleared_line))]
pub fn clear_line(line: LineState) -> LineState
    ensures { result ≡ cleared_line line }
{
    LineState {
        verification: clear_party(line.verification),
        han: clear_cipher_party(line.han),
        ..line
    }
}

#[tactic(auto, unfolding(crate::specs::Canonical::cleared_party))]
fn clear_party(party: Party) -> Party
    ensures { result ≡ cleared_party party }
{
    Party {
        agreed: while_standing(party.phase, party.agreed),
        ..party
    }
}

#[tactic(auto, unfolding(crate::specs::Canonical::cleared_cipher_party))]
fn clear_cipher_party(h: CipherParty) -> CipherParty
    ensures { result ≡ cleared_cipher_party h }
{
    let phase = h.party.phase;
    CipherParty {
        party: clear_party(h.party),
        key: while_standing(phase, h.key),
        client: while_pending(phase, h.client),
        meter: while_pending(phase, h.meter),
        ..h
    }
}

// Bytes that an association holds while it stands, pending or associated; else zeros.
fn while_standing<const N: usize>(phase: Phase, bytes: [u8; N]) -> [u8; N]
    ensures { result ≡ while_standing phase N bytes.entry }
{
    match phase {
        Phase::Idle => [0u8; N],
        Phase::Pending | Phase::Associated => bytes,
    }
}

// Bytes that it holds while it is pending; else zeros.
fn while_pending<const N: usize>(phase: Phase, bytes: [u8; N]) -> [u8; N]
    ensures { result ≡ while_pending phase N bytes.entry }
{
    match phase {
        Phase::Pending => bytes,
        Phase::Idle | Phase::Associated => [0u8; N],
    }
}
