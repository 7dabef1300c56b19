// Links: frames that are refused by FRMR or DM, links that come up and go down.
#![tactic(auto, using(model::proofs::LimitFacts::reply_room_lem))]

ghost use Rattle.std.specs.Prelude.{◌≡◌};
ghost use Rattle.line.specs.View.{line_of};
ghost use Rattle.protocol.specs.Rulings.{Test, dm, frame, refusal_of, reject as frmr, says};
ghost use Rattle.protocol.specs.Decide.{link_down, link_up};
ghost use Rattle.replies.specs.Room.{HasRoom};
ghost use Rattle.ending.specs.Inner.{Tells};

use ending::Told;
use hdlc::{FrameTest, Head};
use line::LineState;
use model::Client;

// FRMR.
pub fn reject(line: LineState, head: Head, test: FrameTest, out: &mut [u8]) -> Told
    requires { HasRoom out.old }
    ensures { Tells (says (frame test) (frmr head test) (line_of line)) line out.old out.new result }
{
    Told {
        refusal: hdlc::number_of(test),
        count: hdlc_write::put_frmr(out, head, test),
        line,
    }
}

// DM: a link is not possible, or down.
pub fn refuse(line: LineState, head: Head, out: &mut [u8]) -> Told
    requires { HasRoom out.old }
    ensures { (t : Test) → refusal_of t ≡ 10 → Tells (says t (dm head) (line_of line)) line out.old out.new result }
{
    Told {
        refusal: 10,
        count: hdlc_write::put_dm(out, head),
        line,
    }
}

// A link is to come up.
pub fn link_up(
    line: LineState,
    client: Client,
    head: Head,
    information: bool,
    out: &mut [u8],
) -> Told
    requires { HasRoom out.old }
    ensures { Tells (link_up (line_of line) client head information) line out.old out.new result }
{
    if information {
        return refuse(line, head, out);
    }
    if association::is_held_by_p5(line, client) {
        return refuse(line, head, out);
    }
    Told {
        refusal: 0,
        count: hdlc_write::put_ua(out, head),
        line: association::with_link(line, client, true),
    }
}

// A link is to go down.
pub fn link_down(line: LineState, client: Client, head: Head, out: &mut [u8]) -> Told
    requires { HasRoom out.old }
    ensures { Tells (link_down (line_of line) client head) line out.old out.new result }
{
    if !line::is_up(line, client) {
        return refuse(line, head, out);
    }
    Told {
        refusal: 0,
        count: hdlc_write::put_ua(out, head),
        line: association::with_link(line, client, false),
    }
}
