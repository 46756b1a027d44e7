//! Days of the calendar, and the one before and the one after (FHIR R4, Data Types, date).

ghost use Rattle.std.specs.Prelude.{◌≡◌, ◌≤◌, IsTrue};
ghost use Rattle.fhir_prims.specs.Moments.{days_in, has_day};
ghost use Rattle.fhir_prims.specs.Calendar.{day_after, day_before};

use crate::moments::has_day;

/// A day of the calendar. The years 0 and 10000 come only from a move to UTC.
#[derive(Clone, Copy)]
pub(crate) struct Day {
    pub(crate) year: u32,
    pub(crate) month: u16,
    pub(crate) day: u16,
}

fn days_in(year: u32, month: u16) -> u16
    requires year { (1 ≤ year) × (year ≤ 9999) }
    requires month { (1 ≤ month) × (month ≤ 12) }
    ensures { result ≡ days_in year month }
{
    if has_day(year, month, 31) {
        31
    } else if has_day(year, month, 30) {
        30
    } else if has_day(year, month, 29) {
        29
    } else {
        28
    }
}

pub(crate) fn day_after(day: Day) -> Day
    requires { IsTrue (has_day day.year day.month day.day) }
    ensures { result ≡ day_after day }
{
    if day.day < days_in(day.year, day.month) {
        Day {
            day: day.day + 1,
            ..day
        }
    } else if day.month < 12 {
        Day {
            month: day.month + 1,
            day: 1,
            ..day
        }
    } else {
        Day {
            year: day.year + 1,
            month: 1,
            day: 1,
        }
    }
}

pub(crate) fn day_before(day: Day) -> Day
    requires { IsTrue (has_day day.year day.month day.day) }
    ensures { result ≡ day_before day }
{
    if day.day > 1 {
        Day {
            day: day.day - 1,
            ..day
        }
    } else if day.month > 1 {
        Day {
            month: day.month - 1,
            day: days_in(day.year, day.month - 1),
            ..day
        }
    } else {
        Day {
            year: day.year - 1,
            month: 12,
            day: 31,
        }
    }
}
