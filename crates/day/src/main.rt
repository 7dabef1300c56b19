// A night at the plug of a meter: its owner lets the clock tick over the hour that comes twice, a home display with the keys
// reads the rows over real frames, and a stranger without keys sends the same requests. `--frames` shows every frame in hex.
// It is a play, whose lines `play` has. Each begins with a mark; what follows stands in fields, each after a bar, bytes in hex:
//
//     >text                           printed
//     ?|asked|frame                   a frame, put to the meter and to its twin, and a line that tells what came of it
//     !|challenge                     from here on the owner lends this challenge
//     %|words|else|place|tag|bytes    the words, where the last answer is what the home display waits for; else the other words, and
//                                     the display stops. Between its flags the answer has to begin with the bytes up to the place.
//                                     Where there is a tag, an envelope follows: its text is the rest of the bytes, or, where there
//                                     is no rest, any, and kept as that of the rows
//     *                               the rows
//     :|words||number                 the words, where this is the number of the last answer
//     /|words                         the words, where all of the owner's calls were accepted
//     $|words|words                   the first, where no answer has told of a value; else the second
//
// Every other line is a call of the owner, as `docs/SCRIPT.md` has it, and made on both.
#![tactic(auto)]

mod display;
mod held;
mod play;
mod plug;
mod table;

use display::Text;
use meter::Meter;
use plug::Answer;
use std::env::FillError;
use std::rt::Env;
use text::{after, field, print};

// The meter and its twin; the challenge that is lent, and the last answer; the meter's last counter and the text with the rows,
// as the home display has them; whether the owner's calls were all accepted, whether any answer has told of a value, and whether
// frames are shown.
#[derive(Clone, Copy)]
pub struct Scene {
    pub meter: Meter,
    pub twin: Meter,
    pub challenge: [u8; 8],
    pub answer: Answer,
    pub counter: u32,
    pub rows: Text,
    pub accepted: bool,
    pub told: bool,
    pub shown: bool,
}

// The home display has stopped, and the play is over.
#[derive(Clone, Copy, Debug, PartialEq, Eq)]
pub struct Stopped;

fn main(rt: HostRuntime) {
    match shows_frames(&rt) {
        Some(shown) => {
            let _ = night(&rt, shown);
        }
        None => print_line(
            &rt,
            b"usage: day [--frames]     --frames shows every frame in hexadecimal",
        ),
    }
}

// Whether the program was started to show frames; none, where its arguments are others.
fn shows_frames(env: &impl Env) -> Option<bool> {
    if !has_argument(env, 1) {
        return Some(false);
    }
    let mut word = [0u8; 9];
    let n = env.arg(1, &mut word).ok()?;
    (text::first(&word, n) == b"--frames".as_slice() && !has_argument(env, 2)).then_some(true)
}

// Whether the program was started with an argument at this place; its name is the one at 0.
fn has_argument(env: &impl Env, i: usize) -> bool {
    let mut none = [0u8; 0];
    !matches!(env.arg(i, &mut none), Err(FillError::NotPresent))
}

// The acts in turn. The stranger comes to the plug twice: as the home display has read, and as it has left.
fn night(printer: &impl Print, shown: bool) -> Result<(), Stopped> {
    let mut scene = Scene::begun(shown);
    walk(printer, &mut scene, play::OWNER)?;
    walk(printer, &mut scene, play::HOUR_AGAIN)?;
    walk(printer, &mut scene, play::HOME_DISPLAY)?;
    let mut before = scene;
    walk(printer, &mut scene, play::LEAVING)?;
    before.told = false;
    walk(printer, &mut before, play::STRANGER)?;
    scene.told = before.told;
    walk(printer, &mut scene, play::STRANGER_AGAIN)
}

impl Scene {
    fn begun(shown: bool) -> Scene {
        let meter = Meter::new([0; 16], [0; 8], [0; 8], [0; 8]);
        Scene {
            meter,
            twin: meter,
            challenge: [0; 8],
            answer: Answer::none(),
            counter: 0,
            rows: Text::none(),
            accepted: true,
            told: false,
            shown,
        }
    }
}

// Line after line, until the display stops.
fn walk(printer: &impl Print, s: &mut Scene, act: &[u8]) -> Result<(), Stopped> {
    for l in text::each_line(act) {
        line(printer, s, l)?;
    }
    Ok(())
}

fn line(printer: &impl Print, s: &mut Scene, l: &[u8]) -> Result<(), Stopped> {
    // A `match`, since each mark has other fields: a table of closures would be no plainer.
    match text::letter(l) {
        0 => {}
        b'>' => print_line(printer, after(l, 1)),
        b'?' => plug::asked(printer, s, l),
        b'!' => s.challenge = text::array(l, 1),
        b'%' => return display::heard(printer, s, l),
        b'*' => table::print_rows(printer, s.rows.bytes()),
        b':' => print_words(printer, l, s.answer.number == text::byte(l, 3)),
        b'/' => print_words(printer, l, s.accepted),
        b'$' => print_words(printer, l, !s.told),
        _ => plug::called(printer, s, l),
    }
    Ok(())
}

// The words of a line where something holds, and its other words where not; none, where it has none.
pub fn print_words(printer: &impl Print, l: &[u8], holds: bool) {
    let words = field(l, if holds { 1 } else { 2 });
    if !words.is_empty() {
        print_line(printer, words);
    }
}

pub fn print_line(printer: &impl Print, s: &[u8]) {
    print(printer, s);
    print(printer, b"\n");
}
