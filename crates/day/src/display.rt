// The home display, "H" of document 01, at the last answer. What it tells of the meter comes from the bytes of the answer: it is
// told only where they are what the display waits for. An answer that is not ends its visit, and with it the play.
use crate::held::Held;
use crate::plug::LONGEST;
use crate::{Scene, Stopped, play, print_words};
use envelope::LONGEST_APDU;
use model::Counters;
use text::{after, bytes_in, first};

// The tag of an envelope around the answer to a request, which is closed with the dedicated key; all others are with GUK.
const ANSWER: u8 = 0xD4;

// What the check of a frame comes to over its bytes with that check behind them.
const WHOLE: u16 = 0x0F47;

// The text of an envelope.
pub type Text = Held<LONGEST_APDU>;

// What an answer that was waited for holds: the meter's last counter, and the text where it is to be kept.
#[derive(Clone, Copy)]
struct Content {
    counter: u32,
    kept: Option<Text>,
}

// The last answer is held against what a line waits for.
pub fn heard(printer: &impl Print, s: &mut Scene, l: &[u8]) -> Result<(), Stopped> {
    let mut room = [0u8; LONGEST];
    let wanted = bytes_in(l, 5, &mut room);
    let heard = read(s.answer.sent.bytes(), s.counter, l, wanted);
    print_words(printer, l, heard.is_some());
    let heard = heard.ok_or(Stopped)?;
    s.counter = heard.counter;
    if let Some(rows) = heard.kept {
        s.rows = rows;
    }
    Ok(())
}

// An answer that is whole, begins as it has to, and ends in nothing more, where no tag is waited for, or in an envelope.
fn read(frame: &[u8], accepted: u32, l: &[u8], wanted: &[u8]) -> Option<Content> {
    let inside = between_flags(frame)?;
    let place = usize::from(text::byte(l, 3));
    let tag = text::byte(l, 4);
    if fcs::check(inside) != WHOLE || first(inside, place) != first(wanted, place) {
        return None;
    }
    let rest = after(inside, place);
    if rest.is_empty() {
        return (tag == 0).then_some(Content {
            counter: accepted,
            kept: None,
        });
    }
    let (counter, text) = opened(accepted, tag, before_check(rest))?;
    compared(counter, text, after(wanted, place))
}

// The counter and the text of an envelope that opens and has a new counter.
fn opened(accepted: u32, tag: u8, apdu: &[u8]) -> Option<(u32, Text)> {
    let keys = material::ready_keys(key(tag), play::AK);
    let pair = Counters { accepted, sent: 0 };
    let mut text = [0u8; LONGEST_APDU];
    let opening = envelope::admit_envelope(keys, play::TITLE, tag, pair, apdu, &mut text).ok()?;
    Some((opening.counter, Held::new(text, opening.size)))
}

fn key(tag: u8) -> [u8; 16] {
    if tag == ANSWER {
        play::DEDICATED
    } else {
        play::GUK
    }
}

// The text is the one that is waited for; where none is, it is kept, unless it is empty.
fn compared(counter: u32, text: Text, wanted: &[u8]) -> Option<Content> {
    if wanted.is_empty() {
        let kept = Some(text).filter(|text| !text.bytes().is_empty());
        return Some(Content { counter, kept });
    }
    (text.bytes() == wanted).then_some(Content {
        counter,
        kept: None,
    })
}

// What stands between the flags of a frame.
fn between_flags(frame: &[u8]) -> Option<&[u8]> {
    frame.strip_prefix(b"\x7E")?.strip_suffix(b"\x7E")
}

// An envelope, without the check of the frame behind it.
fn before_check(rest: &[u8]) -> &[u8] {
    first(rest, rest.len().saturating_sub(2))
}
