//! The command line of `debplan`: from its words to the call that they spell. It stands on `clap`, which reads words by what a
//! command declares. The main calls are `joined_words`, which joins each option to the word behind it, and `call_of`.
#![tactic(auto)]

mod arguments;
mod call;
mod declare;
mod help;
mod join;
mod number;
mod texts;

pub use arguments::{call_of, mistake};
pub use call::{Call, Extent, Format, Options, Relation, RequestSource, ShardNumber, Survey};
pub use declare::program;
pub use help::COMMANDS;
pub use join::joined_words;
pub use texts::texts_of;
