//! The text of relation fields (Debian Policy, chapter 7), over bytes: the shape of a value and how it is cut
//! into the parts of its atoms. It stands on `rules`, and on `debversion` for the versions in a value. The main
//! call is `check`, which tests a value of a `RelationForm` without taking memory. What the parts are values of stands
//! in `relation`.
#![tactic(auto)]

mod acceptor;
mod cut;
mod error;
mod laws;
mod quick;
mod refusal;
mod shape;

pub use acceptor::Acceptor;
pub use cut::{
    Separator, cut_part, inside_of, is_blank, is_foreign, name_len, split_name, split_operator,
    split_qualifier, version_front,
};
pub use error::RelationFault;
pub use laws::{what_is_read_is_spelled, what_is_spelled_is_read};
pub use refusal::{a_shape_is_refused_at_the_first_byte_that_goes_on_with_no_text, check};
pub use shape::{
    RelationForm, every_other_place_has_a_completion, no_text_goes_on_from_the_dead_place,
};
