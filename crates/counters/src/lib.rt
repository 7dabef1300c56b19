// The counter pair of a ciphering client: the meter's own counter advanced where it stands, and the tests of the counters that
// the client sends. specs/Advance and specs/Window say what each means, specs/Steps what is claimed of the window. Nothing here has a `requires`.
#![tactic(auto)]

ghost use Rattle.std.specs.Prelude.{◌≡◌};
ghost use Rattle.counters.specs.Advance.{taken};
ghost use Rattle.counters.specs.Window.{accepting, inner_allowed, in_window, step_to};

use model::Counters;

// The pair after a number was taken, and that number, the one to use.
#[derive(Clone, Copy)]
pub struct Taken {
    pub counters: Counters,
    pub number: u32,
}

// The number to use for an envelope or a proof that is sent, and the pair afterwards: `advance` for a pair held by value.
pub fn take(mut pair: Counters) -> Taken
    ensures { result ≡ taken pair }
{
    let number = advance(&mut pair);
    Taken {
        counters: pair,
        number,
    }
}

// The pair is advanced where it stands, and the number to use comes back.
pub fn advance(c: &mut Counters) -> u32
    ensures { (result ≡ (taken c.old).number) × (c.new ≡ (taken c.old).counters) }
{
    let next = advanced(*c);
    *c = next.counters;
    next.number
}

// The same by value: what `advance` is made of.
#[tactic(auto, unfolding(crate::specs::Advance::taken, crate::specs::Advance::next_counter))]
fn advanced(c: Counters) -> Taken
    ensures { result ≡ taken c }
{
    let number = c.sent.wrapping_add(1);
    Taken {
        counters: Counters { sent: number, ..c },
        number,
    }
}

// The step from the last accepted to a counter, modulo 2^32.
#[tactic(auto, unfolding(crate::specs::Window::step_to))]
fn step_to(accepted: u32, counter: u32) -> u32
    ensures { result ≡ step_to accepted counter }
{
    counter.wrapping_sub(accepted)
}

// Whether the counter of an envelope that opened lies in its window.
#[tactic(auto, unfolding(crate::specs::Window::in_window))]
pub fn is_in_window(pair: Counters, counter: u32) -> bool
    ensures { result ≡ in_window pair.accepted counter }
{
    let step = step_to(pair.accepted, counter);
    (1..=180).contains(&step)
}

// Whether the inner counter of a proof lies after the last accepted, by fewer steps than its envelope's.
#[tactic(auto, unfolding(crate::specs::Window::inner_allowed))]
pub fn is_inner_allowed(pair: Counters, outer: u32, inner: u32) -> bool
    ensures { result ≡ inner_allowed pair.accepted outer inner }
{
    let near = step_to(pair.accepted, inner);
    let far = step_to(pair.accepted, outer);
    1 <= near && near < far
}

// The pair with a counter as the last accepted.
#[tactic(auto, unfolding(crate::specs::Window::accepting))]
pub fn accept(pair: Counters, counter: u32) -> Counters
    ensures { result ≡ accepting pair counter }
{
    Counters {
        accepted: counter,
        ..pair
    }
}
