//! Dates, moments and times of day, and their order.

ghost use Rattle.std.specs.Prelude.{◌≡◌, IsTrue, option_map};
ghost use Rattle.std.specs.Ordering.{nat_cmp, partial_ordering_then};
ghost use Rattle.fhir_decimal.specs.Value.{value_of, value_order};
ghost use Rattle.fhir_decimal.specs.Views.{parts_seen};
ghost use Rattle.fhir_prims.specs.Moments.{is_moment};
ghost use Rattle.fhir_prims.specs.Order.{field_order, moment_order};
ghost use Rattle.fhir_prims.specs.Reading.{date_fields, year_fields, month_fields, day_fields, moment_fields, time_fields, minutes_of, instant_fields, fields_of};
ghost use Rattle.fhir_prims.specs.Views.{fields_seen, time_seen, moment_seen};

use crate::calendar::Day;
use crate::cut::{MomentText, TimeText, cut_moment, cut_time};
use crate::moments::{is_day_text, is_instant, is_month_text, is_time, is_year_text, year_of};
use crate::shapes::pair_at;
use crate::utc::{day_at, day_of_minutes, minutes_at, second_of, utc_minutes};
use fhir_decimal::Decimal;
use std::cmp::Ordering;

/// A date, a moment or a time of day (FHIR R4, Data Types, date, dateTime, instant, time), as the
/// fields that its text gives: those of a date, as far as it goes; all of a moment, in UTC; those
/// of a time of day. The fraction of the second is borrowed.
#[derive(Clone, Copy, Debug)]
pub struct Moment<'a> {
    /// The year, of a date and of a moment.
    pub year: Option<u32>,
    /// The month, from 1.
    pub month: Option<u32>,
    /// The day of the month, from 1.
    pub day: Option<u32>,
    /// The hour, of a moment and of a time of day.
    pub hour: Option<u32>,
    /// The minute.
    pub minute: Option<u32>,
    /// The second, with its fraction.
    pub second: Option<Decimal<'a>>,
}

fn of_date<'a>(year: Option<u32>, month: Option<u32>, day: Option<u32>) -> Moment<'a>
    ensures { fields_seen result ≡ date_fields year month day }
{
    Moment {
        year,
        month,
        day,
        hour: None,
        minute: None,
        second: None,
    }
}

fn of_year(text: &[u8]) -> Moment<'_>
    ensures { fields_seen result ≡ year_fields text.now }
{
    of_date(Some(year_of(text)), None, None)
}

fn of_month(text: &[u8]) -> Moment<'_>
    ensures { fields_seen result ≡ month_fields text.now }
{
    of_date(Some(year_of(text)), Some(u32::from(pair_at(text, 5))), None)
}

fn of_day(text: &[u8]) -> Moment<'_>
    ensures { fields_seen result ≡ day_fields text.now }
{
    let month = u32::from(pair_at(text, 5));
    let day = u32::from(pair_at(text, 8));
    of_date(Some(year_of(text)), Some(month), Some(day))
}

fn of_moment(day: Day, minutes: u32, second: Decimal<'_>) -> Moment<'_>
    ensures { fields_seen result ≡ moment_fields day minutes (value_of (parts_seen second.entry)) }
{
    Moment {
        year: Some(day.year),
        month: Some(u32::from(day.month)),
        day: Some(u32::from(day.day)),
        hour: Some(minutes / 60),
        minute: Some(minutes % 60),
        second: Some(second),
    }
}

fn of_time<'a>(time: &TimeText<'a>) -> Moment<'a>
    ensures { fields_seen result ≡ time_fields (time_seen time.now) }
{
    Moment {
        year: None,
        month: None,
        day: None,
        hour: Some(u32::from(pair_at(time.clock, 0))),
        minute: Some(u32::from(pair_at(time.clock, 3))),
        second: Some(second_of(time)),
    }
}

fn minutes_of(time: &TimeText<'_>) -> u32
    ensures { result ≡ minutes_of (time_seen time.now) }
{
    utc_minutes(time.zone, minutes_at(time.clock, 0))
}

fn of_instant<'a>(moment: &MomentText<'a>) -> Moment<'a>
    requires { IsTrue (is_moment (moment_seen moment.now)) }
    ensures { fields_seen result ≡ instant_fields (moment_seen moment.now) }
{
    let minutes = minutes_of(&moment.time);
    let day = day_of_minutes(minutes, day_at(moment.day));
    of_moment(day, minutes % 1440, second_of(&moment.time))
}

fn of_bytes(text: &[u8]) -> Option<Moment<'_>>
    ensures { option_map fields_seen result ≡ fields_of text.now }
{
    if is_year_text(text) {
        Some(of_year(text))
    } else if is_month_text(text) {
        Some(of_month(text))
    } else if is_day_text(text) {
        Some(of_day(text))
    } else if is_instant(text) {
        Some(of_instant(&cut_moment(text)))
    } else if is_time(text) {
        Some(of_time(&cut_time(text)))
    } else {
        None
    }
}

impl<'a> Moment<'a> {
    /// What the text of a date, dateTime, instant or time says, and none for any other text (FHIR
    /// R4, Data Types). A moment with a time is moved to UTC by whole minutes, so that the second
    /// 60 stays, and the years 0 and 10000 may come.
    pub fn of(text: &'a str) -> Option<Moment<'a>>
        ensures { option_map fields_seen result ≡ fields_of text.now }
    {
        of_bytes(text.as_bytes())
    }
}

fn number_order(left: Option<u32>, right: Option<u32>) -> Option<Ordering>
    ensures { result ≡ field_order nat_cmp left right }
{
    match (left, right) {
        (Some(left), Some(right)) => Some(left.cmp(&right)),
        (None, None) => Some(Ordering::Equal),
        _ => None,
    }
}

fn second_order(left: Option<Decimal<'_>>, right: Option<Decimal<'_>>) -> Option<Ordering>
    ensures { result ≡ field_order value_order
        (option_map (λ d. value_of (parts_seen d)) left.entry)
        (option_map (λ d. value_of (parts_seen d)) right.entry) }
{
    match (left, right) {
        (Some(left), Some(right)) => Some(left.cmp(&right)),
        (None, None) => Some(Ordering::Equal),
        _ => None,
    }
}

fn then_by(first: Option<Ordering>, next: Option<Ordering>) -> Option<Ordering>
    ensures { result ≡ partial_ordering_then first next }
{
    match first {
        Some(Ordering::Equal) => next,
        decided => decided,
    }
}

/// The order of two dates, moments or times of day, where they have one: the first field in which
/// they differ decides, from the year on. Two that are equal as far as the shorter goes have none,
/// and so a time of day and a moment (FHIRPath N1, Comparison).
pub fn cmp_moment(left: &Moment<'_>, right: &Moment<'_>) -> Option<Ordering>
    ensures { result ≡ moment_order (fields_seen left.now) (fields_seen right.now) }
{
    let second = second_order(left.second, right.second);
    let minute = then_by(number_order(left.minute, right.minute), second);
    let hour = then_by(number_order(left.hour, right.hour), minute);
    let day = then_by(number_order(left.day, right.day), hour);
    let month = then_by(number_order(left.month, right.month), day);
    then_by(number_order(left.year, right.year), month)
}
