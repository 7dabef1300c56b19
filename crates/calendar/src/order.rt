// The order of clocks: each names a moment, and the later of two has the greater number.
ghost use Rattle.std.specs.Prelude.{◌≡◌, ◌+◌, ◌-◌, ◌*◌, ◌<◌, ◌≤◌};
ghost use Rattle.model.specs.Clocks.{day_number, days_of_months, days_of_years, hour, minute, moment as moment_of, second};

use crate::february_days;
use model::Clock;

// The days of the first months of a year of 365 days.
const MONTH_STARTS: [u32; 13] = [0, 31, 59, 90, 120, 151, 181, 212, 243, 273, 304, 334, 365];

// The seconds from the beginning of the year 2000 to a clock.
pub fn moment(clock: Clock) -> u64
    ensures { result ≡ moment_of clock }
{
    u64::from(day_number(clock)) * 86400 + u64::from(second_of_day(clock))
}

fn second_of_day(clock: Clock) -> u32
    ensures { result ≡ (hour clock * 60 + minute clock) * 60 + second clock }
{
    let b = clock.bytes;
    (u32::from(b[5]) * 60 + u32::from(b[6])) * 60 + u32::from(b[7])
}

// The days since the year 2000 began, the clock's own not counted.
fn day_number(clock: Clock) -> u32
    ensures { result ≡ day_number clock }
{
    let b = clock.bytes;
    let year = u32::from(b[0]) * 256 + u32::from(b[1]);
    let months = u32::from(b[2]).saturating_sub(1);
    let days = u32::from(b[3]).saturating_sub(1);
    days_of_years(year.saturating_sub(2000)) + days_of_months(year, months) + days
}

// The days of the first years since 2000. The first of each four has a day more.
fn days_of_years(years: u32) -> u32
    requires { years < 65536 }
    ensures { result ≡ days_of_years years }
{
    years * 365 + (years + 3) / 4
}

// The days of the first months of a year: with February, a day more where February has it. No month follows the twelfth.
fn days_of_months(year: u32, months: u32) -> u32
    ensures { result ≡ days_of_months year months }
{
    let months = months.min(12);
    let days = MONTH_STARTS[months as usize];
    if months < 2 {
        return days;
    }
    days + (february_days(year) - 28)
}
