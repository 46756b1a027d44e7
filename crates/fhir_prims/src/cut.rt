//! The parts of a time's and a moment's text, by their places (FHIR R4, Data Types, dateTime,
//! instant, time).

ghost use Rattle.std.specs.Prelude.{◌≡◌, ◌≤◌, length};
ghost use Rattle.std.specs.List.{prefix_len};
ghost use Rattle.std.specs.Char.{is_ascii_digit};
ghost use Rattle.fhir_prims.specs.Cut.{fraction_len, cut_time, cut_moment};
ghost use Rattle.fhir_prims.specs.Views.{time_seen, moment_seen};

use crate::shapes::{byte_at, cut_at};

/// `hh:mm:ss`, a fraction or none, and what stands behind them.
#[derive(Clone, Copy)]
pub(crate) struct TimeText<'a> {
    pub(crate) clock: &'a [u8],
    pub(crate) fraction: &'a [u8],
    pub(crate) zone: &'a [u8],
}

/// `YYYY-MM-DD`, the byte behind it, and a time.
#[derive(Clone, Copy)]
pub(crate) struct MomentText<'a> {
    pub(crate) day: &'a [u8],
    pub(crate) mark: u8,
    pub(crate) time: TimeText<'a>,
}

// How many digits a text begins with.
fn digits_len(text: &[u8]) -> usize
    ensures value { result ≡ prefix_len is_ascii_digit text.now }
    ensures bound { result ≤ length text.now }
{
    let mut count = 0;
    while count < text.len() && text[count].is_ascii_digit() {
        count += 1;
    }
    count
}

// How many bytes a point and the digits behind it take at the start of a text.
fn fraction_len(text: &[u8]) -> usize
    ensures { result ≡ fraction_len text.now }
{
    match text {
        [] => 0,
        [first, digits @ ..] => {
            if *first == b'.' {
                1 + digits_len(digits)
            } else {
                0
            }
        }
    }
}

pub(crate) fn cut_time(text: &[u8]) -> TimeText<'_>
    ensures { time_seen result ≡ cut_time text.now }
{
    let (clock, rest) = cut_at(text, 8);
    let (fraction, zone) = cut_at(rest, fraction_len(rest));
    TimeText {
        clock,
        fraction,
        zone,
    }
}

pub(crate) fn cut_moment(text: &[u8]) -> MomentText<'_>
    ensures { moment_seen result ≡ cut_moment text.now }
{
    MomentText {
        day: cut_at(text, 10).0,
        mark: byte_at(text, 10),
        time: cut_time(cut_at(text, 11).1),
    }
}
