// What is known of the numbers.

use std::marker::Model;

/// For each number whether its name was present, whether it is the version that stood, and whether it is wanted.
#[derive(Drop)]
pub(crate) struct Known {
    pub(crate) present: Vec<bool>,
    pub(crate) stood: Vec<bool>,
    pub(crate) wanted: Vec<bool>,
}

impl Model for Known {
    ghost use Rattle.search_settle.specs.Moves.{Known as KnownValue};

    ghost Value = { KnownValue };

    ghost view = { λ k. record { present = k.present.items; stood = k.stood.items; wanted = k.wanted.items } };
}
