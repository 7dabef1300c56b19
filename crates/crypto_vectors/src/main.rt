// Ciphers from lines of standard input: AES-128, GCM with tags cut to twelve bytes, GMAC. A line has a letter, a name and fields,
// with a bar between them; what it comes to is printed after its name. Lines that are empty or begin with `#` are headings.
#![tactic(auto)]

ghost use Rattle.std.specs.Prelude.{◌≤◌, length};

use gcm::ReadyKey;
use std::io;
use text::{Hex, array, between, bytes_in, first};

// What sealing and opening go by besides the text.
#[derive(Clone, Copy)]
struct Given<'a> {
    key: ReadyKey,
    nonce: [u8; 12],
    data: &'a [u8],
}

fn main(rt: HostRuntime) {
    let mut input = [0u8; 65536];
    let n = text::read_full(&mut rt.stdin(), &mut input);
    text::answer_lines(&rt, &input[..n], |line| outcome(&rt, line));
}

// A: a block enciphered, by key and block. The others go by key, nonce and associated data, and then: S, a text, sealed; O, a
// cipher text and a tag, opened; M, nothing, the GMAC made; T, a tag, tested as the GMAC.
fn outcome(printer: &impl Print, s: &[u8]) -> io::Result<()> {
    // A `match`, since each letter has other fields: a table of closures would be no plainer.
    match text::letter(s) {
        b'A' => cipher(printer, s),
        b'S' | b'O' | b'M' | b'T' => fields(printer, s),
        _ => Ok(()),
    }
}

fn cipher(printer: &impl Print, s: &[u8]) -> io::Result<()> {
    let w = aes::expand_key(array(s, 2));
    let block = aes::bytes_of(aes::encrypt_block(w, aes::state_of(array(s, 3))));
    print!(printer; "{}", Hex(&block))
}

fn fields(printer: &impl Print, s: &[u8]) -> io::Result<()> {
    let mut data = [0u8; 32];
    let given = Given {
        key: gcm::ready(array(s, 2)),
        nonce: array(s, 3),
        data: bytes_in(s, 4, &mut data),
    };
    let mut room = [0u8; 64];
    let m = bytes_in(s, 5, &mut room);
    match text::letter(s) {
        b'S' => given.seal(printer, m),
        b'O' => given.open(printer, m, &array::<12>(s, 6)),
        b'M' => given.mac(printer),
        _ => given.test(printer, m),
    }
}

impl Given<'_> {
    fn mac(&self, printer: &impl Print) -> io::Result<()> {
        let tag = gcm::gmac(self.key, self.nonce, self.data);
        print!(printer; "{}", Hex(&tag))
    }

    fn test(&self, printer: &impl Print, tag: &[u8]) -> io::Result<()> {
        let right = gcm::is_authentic(self.key, self.nonce, self.data, b"", tag);
        print!(printer; "{}", if right { "yes" } else { "no" })
    }

    // The text is laid out from place 5 of a buffer on and sealed there, as a part of the buffer that is lent. Printed: the byte
    // before the cipher text, cipher text, tag and the byte behind the cipher text; and what it opens to.
    fn seal(&self, printer: &impl Print, plain: &[u8]) -> io::Result<()>
        requires { length plain.now ≤ 64 }
    {
        let mut buf = [0x5au8; 128];
        let e = wire_write::put_all(&mut buf, 5, plain);
        let tag = gcm::seal(self.key, self.nonce, self.data, &mut buf[5..e]);
        let before = between(&buf, 4, e);
        let behind = between(&buf, e, e + 1);
        print!(printer; "sealed {}{}{}, ", Hex(before), Hex(&tag), Hex(behind))?;
        self.open(printer, between(&buf, 5, e), &tag)
    }

    // The plain text, or `-` where it is empty. Where the text is refused: a mark, where the buffer for the plain text has not
    // kept its bytes.
    fn open(&self, printer: &impl Print, sealed: &[u8], tag: &[u8]) -> io::Result<()> {
        let mut out = [0x5au8; 128];
        if !gcm::open_into(self.key, self.nonce, self.data, sealed, tag, &mut out) {
            let kept = text::all_are(&out, 0x5a);
            return print!(printer; "refused{}", if kept { "" } else { " !" });
        }
        let plain = first(&out, sealed.len());
        if plain.is_empty() {
            return print!(printer; "opened -");
        }
        print!(printer; "opened {}", Hex(plain))
    }
}
