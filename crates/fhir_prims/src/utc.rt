//! Clocks in texts, and the move to UTC (FHIR R4, Data Types, dateTime and instant).

ghost use Rattle.std.specs.Prelude.{◌≡◌, ◌≤◌, IsTrue};
ghost use Rattle.fhir_decimal.specs.Value.{value_of};
ghost use Rattle.fhir_decimal.specs.Views.{parts_seen};
ghost use Rattle.fhir_prims.specs.Moments.{has_day};
ghost use Rattle.fhir_prims.specs.Utc.{day_at, minutes_at, second_of, offset_of, is_behind, utc_minutes, day_of_minutes};
ghost use Rattle.fhir_prims.specs.Views.{time_seen};

use crate::calendar::{Day, day_after, day_before};
use crate::cut::TimeText;
use crate::moments::year_of;
use crate::shapes::{byte_at, cut_at, has_shape, pair_at};
use fhir_decimal::Decimal;

pub(crate) fn day_at(text: &[u8]) -> Day
    ensures { result ≡ day_at text.now }
{
    Day {
        year: year_of(text),
        month: pair_at(text, 5),
        day: pair_at(text, 8),
    }
}

pub(crate) fn minutes_at(text: &[u8], place: u8) -> u32
    requires { place ≤ 20 }
    ensures value { result ≡ minutes_at text.now place }
    ensures small { result ≤ 171105 }
{
    60 * u32::from(pair_at(text, place)) + u32::from(pair_at(text, place + 3))
}

pub(crate) fn second_of<'a>(time: &TimeText<'a>) -> Decimal<'a>
    ensures { value_of (parts_seen result) ≡ second_of (time_seen time.now) }
{
    Decimal::of_digits(cut_at(time.clock, 6).1, cut_at(time.fraction, 1).1)
}

fn offset_of(zone: &[u8]) -> u32
    ensures value { result ≡ offset_of zone.now }
    ensures small { result ≤ 171105 }
{
    if has_shape("Z", zone) {
        0
    } else {
        minutes_at(zone, 1)
    }
}

fn is_behind(zone: &[u8]) -> bool
    ensures { result ≡ is_behind zone.now }
{
    byte_at(zone, 0) == b'-'
}

pub(crate) fn utc_minutes(zone: &[u8], minutes: u32) -> u32
    requires { minutes ≤ 171105 }
    ensures { result ≡ utc_minutes zone.now minutes }
{
    if is_behind(zone) {
        1440 + minutes + offset_of(zone)
    } else {
        (1440 + minutes).saturating_sub(offset_of(zone))
    }
}

pub(crate) fn day_of_minutes(minutes: u32, day: Day) -> Day
    requires { IsTrue (has_day day.year day.month day.day) }
    ensures { result ≡ day_of_minutes minutes day }
{
    if minutes < 1440 {
        day_before(day)
    } else if minutes < 2880 {
        day
    } else {
        day_after(day)
    }
}
