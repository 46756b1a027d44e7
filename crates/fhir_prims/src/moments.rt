//! The texts of date, dateTime, instant and time (FHIR R4, Data Types).

ghost use Rattle.std.specs.Prelude.{◌≡◌, ◌≤◌};
ghost use Rattle.fhir_prims.specs.Moments.{is_in_calendar, is_month, year_of, is_year_text, is_month_text, has_day, is_day_text, is_date, is_time_of_day, is_clock, is_fraction, is_offset_form, is_offset_size, is_zone, has_clock, is_time, is_moment, is_instant, is_date_time};
ghost use Rattle.fhir_prims.specs.Views.{time_seen, moment_seen};

use crate::bytes::are_digits;
use crate::cut::{MomentText, TimeText, cut_moment, cut_time};
use crate::shapes::{has_shape, pair_at};
use jiff::civil::Date;

fn is_month(month: u16) -> bool
    ensures { result ≡ is_month month }
{
    month >= 1 && month <= 12
}

pub(crate) fn year_of(text: &[u8]) -> u32
    ensures { result ≡ year_of text.now }
{
    let centuries = pair_at(text, 0);
    let years = pair_at(text, 2);
    100 * centuries as u32 + years as u32
}

pub(crate) fn is_year_text(text: &[u8]) -> bool
    ensures { result ≡ is_year_text text.now }
{
    has_shape("0000", text) && year_of(text) >= 1
}

pub(crate) fn is_month_text(text: &[u8]) -> bool
    ensures { result ≡ is_month_text text.now }
{
    has_shape("0000-00", text) && year_of(text) >= 1 && is_month(pair_at(text, 5))
}

// Whether the year has the month, and the month the day.
fn is_in_calendar(year: u16, month: u8, day: u8) -> bool
    requires year { year ≤ 9999 }
    requires month { month ≤ 12 }
    requires day { day ≤ 31 }
    ensures { result ≡ is_in_calendar year month day }
{
    Date::new(year as i16, month as i8, day as i8).is_ok()
}

// The calendar of `jiff` takes smaller numbers, none of which is left out here.
pub(crate) fn has_day(year: u32, month: u16, day: u16) -> bool
    ensures { result ≡ has_day year month day }
{
    year >= 1
        && year <= 9999
        && month <= 12
        && day <= 31
        && is_in_calendar(year as u16, month as u8, day as u8)
}

pub(crate) fn is_day_text(text: &[u8]) -> bool
    ensures { result ≡ is_day_text text.now }
{
    has_shape("0000-00-00", text) && has_day(year_of(text), pair_at(text, 5), pair_at(text, 8))
}

pub(crate) fn is_date(text: &[u8]) -> bool
    ensures { result ≡ is_date text.now }
{
    is_year_text(text) || is_month_text(text) || is_day_text(text)
}

fn is_time_of_day(hour: u16, minute: u16, second: u16) -> bool
    ensures { result ≡ is_time_of_day hour minute second }
{
    hour <= 23 && minute <= 59 && second <= 60
}

fn is_clock(text: &[u8]) -> bool
    ensures { result ≡ is_clock text.now }
{
    has_shape("00:00:00", text)
        && is_time_of_day(pair_at(text, 0), pair_at(text, 3), pair_at(text, 6))
}

fn is_fraction(text: &[u8]) -> bool
    ensures { result ≡ is_fraction text.now }
{
    match text {
        [] => true,
        [first, digits @ ..] => *first == b'.' && are_digits(digits),
    }
}

fn is_offset_form(text: &[u8]) -> bool
    ensures { result ≡ is_offset_form text.now }
{
    has_shape("+00:00", text) || has_shape("-00:00", text)
}

fn is_offset_size(hours: u16, minutes: u16) -> bool
    ensures { result ≡ is_offset_size hours minutes }
{
    (hours <= 13 && minutes <= 59) || (hours == 14 && minutes == 0)
}

fn is_zone(text: &[u8]) -> bool
    ensures { result ≡ is_zone text.now }
{
    has_shape("Z", text)
        || (is_offset_form(text) && is_offset_size(pair_at(text, 1), pair_at(text, 4)))
}

fn has_clock(time: &TimeText<'_>) -> bool
    ensures { result ≡ has_clock (time_seen time.now) }
{
    is_clock(time.clock) && is_fraction(time.fraction)
}

pub(crate) fn is_time(text: &[u8]) -> bool
    ensures { result ≡ is_time text.now }
{
    let time = cut_time(text);
    has_clock(&time) && time.zone.is_empty()
}

fn is_moment(moment: &MomentText<'_>) -> bool
    ensures { result ≡ is_moment (moment_seen moment.now) }
{
    is_day_text(moment.day)
        && moment.mark == b'T'
        && has_clock(&moment.time)
        && is_zone(moment.time.zone)
}

pub(crate) fn is_instant(text: &[u8]) -> bool
    ensures { result ≡ is_instant text.now }
{
    is_moment(&cut_moment(text))
}

pub(crate) fn is_date_time(text: &[u8]) -> bool
    ensures { result ≡ is_date_time text.now }
{
    is_date(text) || is_instant(text)
}
