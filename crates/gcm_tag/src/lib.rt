// The comparison of a tag that was received with the right one: every byte is compared, wherever two differ.
#![tactic(auto)]

ghost use Rattle.std.specs.Prelude.{◌≡◌};
ghost use Rattle.wire.specs.Reading.{same_bytes};

// Whether a slice has these twelve bytes: the differences of all of them are gathered before the answer.
pub fn is_same(r: [u8; 12], t: &[u8]) -> bool
    ensures { result ≡ same_bytes r t.now }
{
    if t.len() != 12 {
        return false;
    }
    let mut d: u8 = 0;
    for (a, b) in r.iter().zip(t) {
        d |= a ^ b;
    }
    d == 0
}
