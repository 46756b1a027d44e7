//! Laws: what the definitions say.

ghost use Rattle.std.specs.Prelude.{◌≡◌, ◌↔◌, ℕ, ℤ, ◌^◌, ◌<◌, ◌||◌, [], Some, None, is_some, false, IsTrue, IsSome, FitsSigned};
ghost use Rattle.std.specs.Int.{w32};
ghost use Rattle.std.specs.Fmt.{decimal, signed_decimal};
ghost use Rattle.std.specs.Ordering.{nat_cmp, ordering_then};
ghost use Rattle.std.specs.Cmp.{IsPartialOrder};
ghost use Rattle.fhir_json.specs.Tree.{Text, Items, Members, null, number, string, array, object};
ghost use Rattle.fhir_decimal.specs.Text.{Parts, IsDecimal};
ghost use Rattle.fhir_decimal.specs.Value.{Value, value_order};
ghost use Rattle.fhir_prims.specs.declared.prim.PrimType.{PrimType};
ghost use Rattle.fhir_prims.specs.declared.prim.PrimType.TheVariants.{Integer, UnsignedInt, PositiveInt, Decimal, Date, DateTime, Instant, Time};
ghost use Rattle.fhir_prims.specs.declared.calendar.Day.{Day};
ghost use Rattle.fhir_prims.specs.Calendar.{is_day, minutes_since};
ghost use Rattle.fhir_prims.specs.Order.{Fields, moment_order, is_same_moment};
ghost use Rattle.fhir_prims.specs.Reading.{moment_fields, fields_of};
ghost use Rattle.fhir_prims.specs.Written.{Clock, Written, year, month, day, time, is_written_date, is_written_moment, is_written_time, text_of, is_possible, full_fields, Says, IsSaid};
ghost use Rattle.fhir_prims.specs.Values.{lexical};

use fhir_decimal::{grammar, order_of_values};

/// No type has an empty string, `null`, an array or an object (FHIR R4, Data Types, primitive
/// types).
pub fn empty_values()
    ensures text { (p : PrimType) → lexical p (string []) ≡ false }
    ensures null { (p : PrimType) → lexical p null ≡ false }
    ensures arrays { (p : PrimType) (items : Items) → lexical p (array items) ≡ false }
    ensures objects { (p : PrimType) (members : Members) → lexical p (object members) ≡ false }
{}

/// A number is a value of `integer` exactly where its text is what a whole number of 32 bits with a
/// sign is written as, one of `unsignedInt` where that number isn't negative, and one of
/// `positiveInt` where it is above 0 (FHIR R4, Data Types, integer, unsignedInt, positiveInt).
pub fn whole_numbers()
    ensures integer { (s : Text) → IsTrue (lexical Integer (number s))
        ↔ ((z : ℤ) × FitsSigned w32 z × (s ≡ signed_decimal z)) }
    ensures unsigned_int { (s : Text) → IsTrue (lexical UnsignedInt (number s))
        ↔ ((n : ℕ) × (n < 2 ^ 31) × (s ≡ decimal n)) }
    ensures positive_int { (s : Text) → IsTrue (lexical PositiveInt (number s))
        ↔ ((n : ℕ) × (0 < n) × (n < 2 ^ 31) × (s ≡ decimal n)) }
{}

/// A number is a value of `decimal` exactly where its text is a decimal's, by the grammar (FHIR R4,
/// Data Types, decimal).
pub fn decimal_numbers()
    ensures { (s : Text) → IsTrue (lexical Decimal (number s)) ↔ ((p : Parts) × IsDecimal s p) }
{
    grammar();
}

/// The texts that `Moment::of` reads are those of the values of date, dateTime, instant and time. A
/// year, a month or a day is a value of date and dateTime, a moment with a time one of dateTime and
/// instant, and a time of day one of time (FHIR R4, Data Types).
pub fn texts_of_moments()
    ensures texts { (s : Text) → is_some (fields_of s) ≡ (lexical Date (string s)
        || lexical DateTime (string s) || lexical Instant (string s) || lexical Time (string s)) }
    ensures date { (w : Written) → IsTrue (is_possible w)
        → lexical Date (string (text_of w)) ≡ is_written_date w }
    ensures date_time { (w : Written) → IsTrue (is_possible w)
        → lexical DateTime (string (text_of w)) ≡ (is_written_date w || is_written_moment w) }
    ensures instant { (w : Written) → IsTrue (is_possible w)
        → lexical Instant (string (text_of w)) ≡ is_written_moment w }
    ensures time { (w : Written) → IsTrue (is_possible w)
        → lexical Time (string (text_of w)) ≡ is_written_time w }
{}

/// The order of moments is a partial one: turned round it is turned, it is transitive where it
/// decides, and moments that are the same can stand for each other.
pub fn order_of_moments()
    ensures { IsPartialOrder is_same_moment moment_order }
{
    order_of_values();
}

/// Two moments with a time are in the order of the minutes from one start to them, and in the same
/// minute in that of their seconds, wherever their days lie.
pub fn moments_in_time()
    ensures { (d e : Day) (m n : ℕ) (a b : Value) → IsTrue (is_day d) → IsTrue (is_day e)
        → m < 1440 → n < 1440 → moment_order (moment_fields d m a) (moment_fields e n b)
        ≡ Some (ordering_then (nat_cmp (minutes_since d m) (minutes_since e n)) (value_order a b)) }
{}

/// A year has no order to a month of it, nor a month to a day of it, a day to a time of it, or a
/// time of day to any of these (FHIRPath N1, Comparison).
pub fn moments_without_order()
    ensures year { (y m : ℕ) (a b : Fields) → Says (year y) a → Says (month y m) b
        → moment_order a b ≡ None }
    ensures month { (d : Day) (a b : Fields) → Says (month d.year d.month) a → Says (day d) b
        → moment_order a b ≡ None }
    ensures day { (d : Day) (hour minute : ℕ) (second : Value) (a : Fields) → Says (day d) a
        → moment_order a (full_fields d hour minute second) ≡ None }
    ensures time { (w : Written) (c : Clock) (a b : Fields) → is_written_time w ≡ false
        → Says w a → Says (time c) b → moment_order a b ≡ None }
{}

/// What `Moment::of` reads is what is written: a text has the fields that are said by a date, a
/// moment or a time of day that is written so, and no others. Each of these is read, and no text
/// is that of two (FHIR R4, Data Types, date, dateTime, instant, time).
pub fn moments_as_written()
    ensures said { (s : Text) (f : Fields) → (fields_of s ≡ Some f) ↔ IsSaid s f }
    ensures every { (w : Written) → IsTrue (is_possible w) → IsSome (fields_of (text_of w)) }
    ensures one { (w v : Written) → IsTrue (is_possible w) → IsTrue (is_possible v)
        → text_of w ≡ text_of v → w ≡ v }
{}
