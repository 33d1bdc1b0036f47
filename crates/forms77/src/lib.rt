//! Forms of statements as data, with their readers.
#![tactic(auto)]

mod dropping;
mod feed;
mod laws;
mod listed;
mod look;
mod parts;
mod rule;
mod shape;
mod stop;
mod tokens;

pub use dropping::discard;
pub use feed::Feed;
pub use laws::{expressions_stay, forms_are_read, groups_are_split, sizes_are_split};
pub use listed::{Leaf, data_objects, input_items, output_items, range};
pub use look::Look;
pub use parts::{label_number, value_or_0};
pub use rule::{
    OneExpression, OneLabel, OneName, Rule, flag, inside, list, list_inside, many, perhaps,
};
pub use shape::{
    constant, designator, element, integer, is_constant, is_designator, is_element, is_integer,
    text_of, variable_of,
};
pub use stop::Stop;
