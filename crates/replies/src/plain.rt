// Replies whose APDU goes out as it is.
ghost use Rattle.std.specs.Prelude.{◌≤◌, ◌<◌, drop, take};
ghost use Rattle.model.specs.Limits.{longest_sent, text_room};
ghost use Rattle.hdlc.specs.Replies.{apdu_frame, Sent};
ghost use Rattle.cosem.specs.Tags.{exception_bytes, release_response};
ghost use Rattle.acse.specs.Aare.{plain_aare, rejected_aare};
ghost use Rattle.replies.specs.Room.{HasRoom};

use crate::APDU_AT;
use cosem::Exception;
use hdlc::Head;
use model::Client;

// An exception.
pub fn send_exception(out: &mut [u8], head: Head, e: Exception) -> usize
    requires { HasRoom out.old }
    ensures { Sent (apdu_frame head (exception_bytes e)) out.old out.new result }
{
    let at = hdlc_write::put_llc(out);
    let end = cosem::put_exception(out, at, e);
    hdlc_write::put_data(out, head, end)
}

// The answer to a release.
pub fn send_release(out: &mut [u8], head: Head) -> usize
    requires { HasRoom out.old }
    ensures { Sent (apdu_frame head release_response) out.old out.new result }
{
    let at = hdlc_write::put_llc(out);
    let end = cosem::put_release(out, at);
    hdlc_write::put_data(out, head, end)
}

// The AARE of an AARQ that is not accepted.
pub fn send_rejected(out: &mut [u8], head: Head, client: Client) -> usize
    requires { HasRoom out.old }
    ensures { Sent (apdu_frame head (rejected_aare client)) out.old out.new result }
{
    let at = hdlc_write::put_llc(out);
    let end = acse_write::put_rejected(out, at, client);
    hdlc_write::put_data(out, head, end)
}

// The AARE that accepts a client that does not cipher.
pub fn send_accepted_plain(
    out: &mut [u8],
    head: Head,
    client: Client,
    title: [u8; 8],
    agreed: [u8; 3],
) -> usize
    requires { HasRoom out.old }
    ensures { Sent (apdu_frame head (plain_aare client title agreed)) out.old out.new result }
{
    let at = hdlc_write::put_llc(out);
    let end = acse_write::put_accepted_plain(out, at, client, &title, &agreed);
    hdlc_write::put_data(out, head, end)
}

// The APDU of `n` bytes that stands in `out` at `APDU_AT`.
pub fn send_plain(out: &mut [u8], head: Head, n: usize) -> usize
    requires { (HasRoom out.old) × (0 < n) × (n ≤ text_room longest_sent) }
    ensures { Sent (apdu_frame head (take n (drop 11 out.old))) out.old out.new result }
{
    hdlc_write::put_llc(out);
    hdlc_write::put_data(out, head, APDU_AT + n)
}
