// A meter that was found sound, and the secrets that are lent: what a frame is heard with.
ghost use Rattle.std.specs.Prelude.{◌≡◌, true};
ghost use Rattle.model.specs.Soundness.{sound};
ghost use Rattle.meter.specs.View.{view};

use meter::Meter;
use protocol::Secrets;

#[derive(Clone, Copy)]
pub struct Ready {
    pub meter: Meter,
    pub secrets: Secrets,
    ghost is_sound: { sound (view meter) ≡ true },
}
