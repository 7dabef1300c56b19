// Clocks and capture periods: when a clock is valid, which moment it names, which periods are permitted, when a capture is due.
// specs/ of the crate model says what each means.
#![tactic(auto)]

mod order;

ghost use Rattle.std.specs.Prelude.{◌≡◌, ◌<◌, ◌≤◌};
ghost use Rattle.model.specs.Clocks.{days_in, february_days, fixed_bytes, real_date, real_time, valid_clock};
ghost use Rattle.model.specs.Periods.{capture_due, permitted_period};

use model::Clock;
pub use order::moment;

// The sixteen periods, in seconds: the multiples of 30 that divide 3600.
const PERIODS: [u32; 16] = [
    30, 60, 90, 120, 150, 180, 240, 300, 360, 450, 600, 720, 900, 1200, 1800, 3600,
];

// Whether a capture period is permitted.
#[tactic(auto, unfolding(model::specs::Periods::periods))]
pub fn is_permitted(period: u32) -> bool
    ensures { result ≡ permitted_period period }
{
    PERIODS.contains(&period)
}

// Whether a capture is due at a clock.
#[tactic(auto, unfolding(model::specs::Periods::capture_due))]
pub fn is_due(period: u32, clock: Clock) -> bool
    requires { 0 < period }
    ensures { result ≡ capture_due period clock }
{
    let b = clock.bytes;
    (u32::from(b[6]) * 60 + u32::from(b[7])) % period == 0
}

// Whether a clock is valid.
#[tactic(auto, unfolding(model::specs::Clocks::valid_clock))]
pub fn is_valid(clock: Clock) -> bool
    ensures { result ≡ valid_clock clock }
{
    has_real_date(clock) && has_real_time(clock) && has_fixed_bytes(clock)
}

#[tactic(auto, unfolding(model::specs::Clocks::real_date))]
fn has_real_date(clock: Clock) -> bool
    ensures { result ≡ real_date clock }
{
    let b = clock.bytes;
    let year = u32::from(b[0]) * 256 + u32::from(b[1]);
    let month = u32::from(b[2]);
    (2000..=2099).contains(&year)
        && (1..=12).contains(&month)
        && (1..=days_in(year, month)).contains(&u32::from(b[3]))
}

#[tactic(auto, unfolding(model::specs::Clocks::real_time))]
fn has_real_time(clock: Clock) -> bool
    ensures { result ≡ real_time clock }
{
    let b = clock.bytes;
    b[5] <= 23 && b[6] <= 59 && b[7] <= 59
}

// Day of week and hundredths FF, deviation 80 00, status 00.
#[tactic(auto, unfolding(model::specs::Clocks::fixed_bytes))]
fn has_fixed_bytes(clock: Clock) -> bool
    ensures { result ≡ fixed_bytes clock }
{
    let b = clock.bytes;
    b[4] == 0xFF && b[8] == 0xFF && b[9] == 0x80 && b[10] == 0x00 && b[11] == 0x00
}

#[tactic(auto, unfolding(model::specs::Clocks::days_in))]
fn days_in(year: u32, month: u32) -> u32
    requires { (1 ≤ month) × (month ≤ 12) }
    ensures { result ≡ days_in year month }
{
    let february = february_days(year);
    let days = [31, february, 31, 30, 31, 30, 31, 31, 30, 31, 30, 31];
    days[month as usize - 1]
}

// In the years 2000 to 2099 every fourth has a 29 February.
#[tactic(auto, unfolding(model::specs::Clocks::february_days))]
fn february_days(year: u32) -> u32
    ensures { result ≡ february_days year }
{
    if year % 4 == 0 { 29 } else { 28 }
}
