// A client's answer to the challenge: whether a request is one, and whether the proof in it is right.
ghost use Rattle.std.specs.Prelude.{◌≡◌};
ghost use Rattle.material.specs.Material.{keys_of};
ghost use Rattle.envelope.specs.Challenge.{right_proof};
ghost use Rattle.line.specs.View.{line_of};
ghost use Rattle.protocol.specs.Clients.{ciphering, counters, held, meter_challenge};
ghost use Rattle.protocol.specs.Decide.{is_challenge, on_first_method, proof_in};

use cosem::{Asked, Wanted};
use line::LineState;
use material::ReadyKeys;
use model::{CipherClient, Client};

// Whether a request is the ACTION that answers the challenge.
#[tactic(auto, unfolding(protocol::specs::Decide::is_challenge))]
pub fn is_challenge(client: CipherClient, text: &[u8], request: Asked) -> bool
    ensures { result ≡ is_challenge client text.now request }
{
    request.class == 15
        && names::same_name(store::challenge_of(client), cosem::name_in(text))
        && is_first_method(request.wanted)
}

// Whether method 1 is wanted.
fn is_first_method(wanted: Wanted) -> bool
    ensures { result ≡ on_first_method wanted }
{
    matches!(
        wanted,
        Wanted::Invoke { method: 1 } | Wanted::InvokeWith { method: 1, .. }
    )
}

// Whether the parameter is the client's right proof.
#[tactic(auto, unfolding(line::specs::View::line_of))]
pub fn proves_itself(
    line: LineState,
    client: CipherClient,
    keys: ReadyKeys,
    counter: u32,
    text: &[u8],
    request: Asked,
) -> bool
    ensures { result ≡ right_proof (keys_of keys) (ciphering client (line_of line)).peer.title (meter_challenge (held client (line_of line))) (counters client (line_of line)).accepted counter (proof_in text.now request.wanted) }
{
    let title = line::title_of(line, Client::Ciphering(client));
    let challenge = line::meter_challenge(line, client);
    let pair = line::counters_of(line, client);
    let proof = proof_in(text, request.wanted);
    envelope::is_right_proof(keys, title, challenge, pair, counter, proof)
}

// The parameter of a request; none is empty.
fn proof_in(text: &[u8], wanted: Wanted) -> &[u8]
    ensures { result.now ≡ proof_in text.now wanted }
{
    match wanted {
        Wanted::InvokeWith { at, .. } => cosem::rest_of(text, at),
        Wanted::Read { .. } | Wanted::ReadSelected { .. } | Wanted::Invoke { .. } => &text[..0],
    }
}
