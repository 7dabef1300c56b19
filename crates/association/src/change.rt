// What the line becomes: links up and down, associations begun and ended, counters. An association that ends leaves zeros,
// and so do challenges that are answered.
#![tactic(auto, unfolding(line::specs::View::line_of))]

ghost use Rattle.std.specs.Prelude.{◌≡◌, []};
ghost use Rattle.model.specs.declared.Client.TheVariants.{Verification, Ciphering};
ghost use Rattle.model.specs.State.{none, «pending» as pending_with, associated};
ghost use Rattle.line.specs.View.{line_of};
ghost use Rattle.protocol.specs.Clients.{associates, linked, peer, with_counters, with_peer};
ghost use Rattle.association.specs.Ends.{Proven, Ends};

use line::{
    CipherParty, LineState, Party, Phase, agreed_in, cipher_of, counters_of, is_up, key_in,
    party_of, resting, resting_cipher, title_of, with_cipher, with_verification,
};
use model::{CipherClient, Client, Counters};

// The client's link is up, or down, and its association ends.
pub fn with_link(line: LineState, client: Client, up: bool) -> LineState
    ensures { Ends client (with_peer client (linked up (peer client (line_of line))) (line_of line)) result }
{
    let title = title_of(line, client);
    match client {
        Client::Verification => with_verification(line, resting(title, up)),
        Client::Ciphering(c) => {
            let rested = resting_cipher(title, up, counters_of(line, c));
            with_cipher(line, c, rested)
        }
    }
}

// The client's association ends; its link stays.
pub fn ended(line: LineState, client: Client) -> LineState
    ensures { Ends client (associates client none (line_of line)) result }
{
    with_link(line, client, is_up(line, client))
}

// V is associated.
pub fn associated_plain(line: LineState, agreed: [u8; 3]) -> LineState
    ensures { line_of result ≡ associates Verification (associated agreed []) (line_of line) }
{
    with_verification(line, in_phase(line.verification, Phase::Associated, agreed))
}

// A client that ciphers is pending: its key and both challenges are held.
pub fn pending(
    line: LineState,
    client: CipherClient,
    agreed: [u8; 3],
    key: [u8; 16],
    theirs: [u8; 8],
    ours: [u8; 8],
    counters: Counters,
) -> LineState
    ensures { line_of result ≡ with_counters client counters (associates (Ciphering client) (pending_with agreed key theirs ours) (line_of line)) }
{
    let before = party_of(line, Client::Ciphering(client));
    let begun = CipherParty {
        party: in_phase(before, Phase::Pending, agreed),
        key,
        client: theirs,
        meter: ours,
        counters,
    };
    with_cipher(line, client, begun)
}

// It is associated: what was agreed and its key stay, and the challenges are wiped.
pub fn associated_ciphered(line: LineState, client: CipherClient, counters: Counters) -> LineState
    ensures { Proven client counters (line_of line) result }
{
    let before = party_of(line, Client::Ciphering(client));
    let agreed = agreed_in(line, Client::Ciphering(client));
    let proven = CipherParty {
        party: in_phase(before, Phase::Associated, agreed),
        key: key_in(line, client),
        client: [0u8; 8],
        meter: [0u8; 8],
        counters,
    };
    with_cipher(line, client, proven)
}

// The counters of a client that ciphers.
pub fn with_counters(line: LineState, client: CipherClient, counters: Counters) -> LineState
    ensures { line_of result ≡ with_counters client counters (line_of line) }
{
    let counted = CipherParty {
        counters,
        ..cipher_of(line, client)
    };
    with_cipher(line, client, counted)
}

// A party whose association has come so far.
fn in_phase(party: Party, phase: Phase, agreed: [u8; 3]) -> Party
    ensures { result ≡ record { title = party.title; up = party.up; phase = phase; agreed = agreed } }
{
    Party {
        phase,
        agreed,
        ..party
    }
}
