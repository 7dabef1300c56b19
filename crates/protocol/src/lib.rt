// The protocol of the link: `decide` and `seal` of document 01 for frames, associations, envelopes and counters, as
// definitions in specs/, with demand 3 proved at them in proofs/. There are no functions: the code that meets them stands above.

#![tactic(auto)]

// What is lent with a frame: GUK, AK, and the challenge that the meter is to send.
#[derive(Clone, Copy)]
pub struct Secrets {
    pub guk: [u8; 16],
    pub ak: [u8; 16],
    pub challenge: [u8; 8],
}
