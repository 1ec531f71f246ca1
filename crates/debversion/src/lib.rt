// Versions of Debian packages: reading, comparing and hashing them (Policy 5.6.12, deb-version(7)).
// It stands on `rules`, which defines the order. The main type is `Version`, read by `Version::parse`;
// it borrows its text, and nothing here takes memory.
#![tactic(auto)]

mod compare;
mod feed;
mod parse;
mod spelling;
mod version;

pub use rules::{BadVersion, Op};
pub use spelling::faultless_texts_are_spelled;
pub use version::Version;
