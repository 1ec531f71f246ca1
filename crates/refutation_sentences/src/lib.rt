// What a person is told of an accepted refutation: a core of its premises, and a sentence for each of them, in an order in which
// each goes on from the one before. It stands on `refutecheck`, which judges each core, on `search`, which finds it and is trusted
// with nothing, on `trim`, and on `input_notes`, which has priorities. The main calls are `core` and `sentences`.
#![tactic(auto)]

mod against;
mod basis;
mod causes;
mod closing;
mod context;
mod convert;
mod given;
mod goals;
mod instead;
mod lists;
mod member;
mod needs;
mod offers;
mod order;
mod reduction;
mod sentence;
mod shorter;
mod starts;
mod table;
mod tell;
mod unadmitted;
mod wanted;

pub use shorter::core;
pub use tell::sentences;
