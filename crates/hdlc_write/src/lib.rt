// HDLC replies written from the start of a lent buffer; the bytes after them keep their values. Each takes the head of the
// received frame and exchanges its addresses; it asks for room, and of a data frame for information that the length can
// count. What the frames are stands in specs/ of the crate hdlc; proofs/ has the laws for callers.
#![tactic(auto)]

ghost use Rattle.std.specs.Prelude.{◌≡◌, [], ◌∷◌, ◌+◌, ◌≤◌, ◌<◌, length};
ghost use Rattle.fcs.specs.Check.{check_of};
ghost use Rattle.wire.specs.Numbers.{low_first};
ghost use Rattle.wire.specs.Reading.{part};
ghost use Rattle.wire.specs.Wrote.{Wrote};
ghost use Rattle.hdlc.specs.Layout.{flag, head_bytes};
ghost use Rattle.hdlc.specs.Tests.{reply_llc};
ghost use Rattle.hdlc.specs.Replies.{ua_frame, dm_frame, frmr_frame, data_frame, reject_code, reply_frame, Sent};

use hdlc::{FrameTest, Head, number_of};

// UA, and DM below: one `put_plain` under two names that docs/CONTRACTS.md has.
pub fn put_ua(out: &mut [u8], head: Head) -> usize
    requires { 9 ≤ length out.old }
    ensures { Sent (ua_frame head) out.old out.new result }
{
    put_plain(out, head, 0x73)
}

// DM.
pub fn put_dm(out: &mut [u8], head: Head) -> usize
    requires { 9 ≤ length out.old }
    ensures { Sent (dm_frame head) out.old out.new result }
{
    put_plain(out, head, 0x1F)
}

// FRMR, for a frame that the test refused.
pub fn put_frmr(out: &mut [u8], head: Head, test: FrameTest) -> usize
    requires { 14 ≤ length out.old }
    ensures { Sent (frmr_frame head test) out.old out.new result }
{
    let end = wire_write::put_all(out, 8, &[head.control, 0x00, reject_code(test)]);
    put_around(out, head, 0x97, end)
}

// LLC, where the information of a data frame begins. The APDU is written after it.
pub fn put_llc(out: &mut [u8]) -> usize
    requires { 11 ≤ length out.old }
    ensures { Wrote out.old 8 out.new result reply_llc }
{
    wire_write::put_all(out, 8, b"\xE6\xE7\x00")
}

// The data frame around the information that stands from byte 8 up to `end`.
pub fn put_data(out: &mut [u8], head: Head, end: usize) -> usize
    requires { (8 < end) × (end + 1 < 0x800) × (end + 3 ≤ length out.old) }
    ensures { Sent (data_frame head (part 8 end out.old)) out.old out.new result }
{
    put_around(out, head, 0x13, end)
}

// The code that FRMR gives for a test.
fn reject_code(test: FrameTest) -> u8
    ensures { result ≡ reject_code test }
{
    if number_of(test) == 8 { 0x04 } else { 0x01 }
}

// A frame without information.
#[tactic(auto, unfolding(hdlc::specs::Layout::head_bytes))]
fn put_plain(out: &mut [u8], head: Head, control: u8) -> usize
    requires { 9 ≤ length out.old }
    ensures { Sent (reply_frame head control []) out.old out.new result }
{
    let fcs = put_head(out, head, control, 7);
    let last = put_check(out, fcs);
    wire_write::put(out, last, 0x7E)
}

// A frame around the information that stands from byte 8 up to `end`.
#[tactic(auto, unfolding(hdlc::specs::Layout::head_bytes))]
fn put_around(out: &mut [u8], head: Head, control: u8, end: usize) -> usize
    requires { (8 < end) × (end + 1 < 0x800) × (end + 3 ≤ length out.old) }
    ensures { Sent (reply_frame head control (part 8 end out.old)) out.old out.new result }
{
    let hcs = put_head(out, head, control, end + 1);
    put_check(out, hcs);
    let last = put_check(out, end);
    wire_write::put(out, last, 0x7E)
}

// The flag, the format with the length that is counted, the addresses exchanged, the control.
fn put_head(out: &mut [u8], head: Head, control: u8, counted: usize) -> usize
    requires { (6 ≤ length out.old) × (counted < 0x800) }
    ensures { Wrote out.old 0 out.new result (flag ∷ head_bytes counted head.source head.destination control) }
{
    let format = wire_write::put(out, 0, 0x7E);
    let addresses = wire_write::put_number::<2>(out, format, 0xA000 + (counted as u32));
    wire_write::put_all(out, addresses, &[head.source, head.destination, control])
}

// The check of the bytes after the flag up to `at`, put there, low byte first.
fn put_check(out: &mut [u8], at: usize) -> usize
    requires { (1 ≤ at) × (at + 2 ≤ length out.old) }
    ensures { Wrote out.old at out.new result (low_first 2 (check_of (part 1 at out.old))) }
{
    let check = fcs::check(&out[1..at]);
    wire_write::put_u16_low_first(out, at, check)
}
