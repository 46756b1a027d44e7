//! Laws that say in the words of FHIRPath N1 and of FHIR R4 what the definitions of lower libraries compute. A definition that is changed
//! together with its code is refused by one of them. They stand apart from those, since nothing stands on them: so they cost no other
//! crate's proof.
#![tactic(auto)]

mod canonicals;
mod comparisons;
mod decimals;
mod equality;
mod json_values;
mod paths;
mod primitives;
mod syntax;
mod type_tests;

pub use canonicals::versions_of_canonicals;
pub use comparisons::{
    comparisons_by_order, comparisons_of_others, tables_of_order, units_of_quantities,
};
pub use decimals::{exponents_move_points, order_of_negatives, order_of_texts, whole_decimals};
pub use equality::{equal_collections, equality_at_work};
pub use json_values::{equal_scalars, equal_wholes, patterns_of_scalars, patterns_of_wholes};
pub use paths::{items_with_values, paths_of_each, values_that_there_are};
pub use primitives::{
    days_of_months, kinds_in_json, texts_alike, texts_of_dates, texts_of_names, texts_of_times,
    types_by_codes,
};
pub use syntax::{groups_of_a_row, rows_of_operators, shared_by_name, words_of_values};
pub use type_tests::{casts, types_of_items};
