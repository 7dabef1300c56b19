// The AARE and the initiate response, written from `at` on; each writer asks for room only. Their layouts stand in specs/ of
// the crate acse, which has the names by client, too. The envelope of an AARE is the caller's: here is what goes before it.
#![tactic(auto)]

ghost use Rattle.std.specs.Prelude.{◌+◌, ◌≤◌, length};
ghost use Rattle.wire.specs.Wrote.{WroteArray};
ghost use Rattle.acse.specs.Initiate.{initiate_response};
ghost use Rattle.acse.specs.Aare.{ciphered_aare_head, mechanism_field, outcome, plain_aare, rejected_aare, title_field};

use acse::{context_name, mechanism_name};
use model::Client;

// The size that the meter tells.
const TOLD_SIZE: u32 = 768;

// The AARE of an AARQ that is not accepted.
pub fn put_rejected(out: &mut [u8], at: usize, client: Client) -> usize
    requires { at + 33 ≤ length out.old }
    ensures { WroteArray 33 out.old at out.new result (rejected_aare client) }
{
    let information = put_outcome(out, at, 0x1F, client, 1, 13);
    wire_write::put_all(out, information, b"\xBE\x06\x04\x04\x0E\x01\x0A\x00")
}

// The AARE that accepts a client that does not cipher.
pub fn put_accepted_plain(
    out: &mut [u8],
    at: usize,
    client: Client,
    title: &[u8; 8],
    agreed: &[u8; 3],
) -> usize
    requires { at + 64 ≤ length out.old }
    ensures { WroteArray 64 out.old at out.new result (plain_aare client title.now agreed.now) }
{
    let responding = put_outcome(out, at, 0x3E, client, 0, 0);
    let mechanism = put_title(out, responding, title);
    let information = put_mechanism(out, mechanism, client);
    let response = wire_write::put_all(out, information, b"\xBE\x10\x04\x0E");
    put_initiate_response(out, response, agreed)
}

// The AARE that accepts a client that ciphers, up to its envelope, which the caller puts at the place that comes back.
pub fn put_accepted_head(
    out: &mut [u8],
    at: usize,
    client: Client,
    title: &[u8; 8],
    challenge: &[u8; 8],
) -> usize
    requires { at + 66 ≤ length out.old }
    ensures { WroteArray 66 out.old at out.new result (ciphered_aare_head client title.now challenge.now) }
{
    let responding = put_outcome(out, at, 0x61, client, 0, 14);
    let requirements = put_title(out, responding, title);
    let mechanism = wire_write::put_all(out, requirements, b"\x88\x02\x07\x80");
    let value = put_mechanism(out, mechanism, client);
    let lent = wire_write::put_all(out, value, b"\xAA\x0A\x80\x08");
    let information = wire_write::put_array(out, lent, challenge);
    wire_write::put_all(out, information, b"\xBE\x23\x04\x21")
}

// The initiate response.
pub fn put_initiate_response(out: &mut [u8], at: usize, agreed: &[u8; 3]) -> usize
    requires { at + 14 ≤ length out.old }
    ensures { WroteArray 14 out.old at out.new result (initiate_response agreed.now) }
{
    let services = wire_write::put_all(out, at, b"\x08\x00\x06\x5F\x1F\x04\x00");
    let size = wire_write::put_all(out, services, agreed);
    let name = wire_write::put_number::<2>(out, size, TOLD_SIZE);
    wire_write::put_all(out, name, b"\x00\x07")
}

// What every AARE begins with.
fn put_outcome(
    out: &mut [u8],
    at: usize,
    size: u8,
    client: Client,
    verdict: u8,
    diagnostic: u8,
) -> usize
    requires { at + 25 ≤ length out.old }
    ensures { WroteArray 25 out.old at out.new result (outcome size client verdict diagnostic) }
{
    let name = wire_write::put_all(out, at, &[0x61, size, 0xA1, 9, 6, 7]);
    let results = put_name(out, name, &context_name(client));
    wire_write::put_all(
        out,
        results,
        &[0xA2, 3, 2, 1, verdict, 0xA3, 5, 0xA1, 3, 2, 1, diagnostic],
    )
}

// The responding title.
fn put_title(out: &mut [u8], at: usize, title: &[u8; 8]) -> usize
    requires { at + 12 ≤ length out.old }
    ensures { WroteArray 12 out.old at out.new result (title_field title.now) }
{
    let held = wire_write::put_all(out, at, b"\xA4\x0A\x04\x08");
    wire_write::put_array(out, held, title)
}

// The mechanism name.
fn put_mechanism(out: &mut [u8], at: usize, client: Client) -> usize
    requires { at + 9 ≤ length out.old }
    ensures { WroteArray 9 out.old at out.new result (mechanism_field client) }
{
    let name = wire_write::put_all(out, at, b"\x89\x07");
    put_name(out, name, &mechanism_name(client))
}

// An object identifier.
fn put_name(out: &mut [u8], at: usize, name: &[u8; 7]) -> usize
    requires { at + 7 ≤ length out.old }
    ensures { WroteArray 7 out.old at out.new result name.now }
{
    wire_write::put_all(out, at, name)
}
