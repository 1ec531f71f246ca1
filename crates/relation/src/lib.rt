//! Relation fields of packages (Debian Policy, chapter 7): their values, the packages that have them, and
//! which package matches which atom. It stands on `rules`, which says what matches, on `relation_text`, which
//! has the text of the fields and its `check`, on `stanza` and on `debversion`. `parse_clauses` and its kin
//! read a field, `Pkg::from_stanza` a package, and `is_essential` and `counts_for` say what else a stanza says of it.
#![tactic(auto)]

mod atom;
mod error;
mod fields;
mod from_stanza;
mod kind;
mod matching;
mod package_stanza;
mod parse;
mod pkg;
mod provided;
mod values;

pub use atom::{Atom, Clause};
pub use debversion::{Op, Version};
pub use error::{PkgError, PkgFault, RelationError, RequiredField};
pub use fields::PkgFields;
pub use kind::{Kind, kind_of};
pub use package_stanza::{counts_for, is_essential, marks_essential, says_essential};
pub use parse::{parse_atoms, parse_clauses, parse_provides};
pub use pkg::Pkg;
pub use provided::Provided;
pub use relation_text::{
    Acceptor, RelationFault, RelationForm,
    a_shape_is_refused_at_the_first_byte_that_goes_on_with_no_text, check,
    every_other_place_has_a_completion, no_text_goes_on_from_the_dead_place,
};
pub use values::{PkgTexts, PkgValues};
