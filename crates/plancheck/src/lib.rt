// Legality of plans: whether each action is legal by Policy chapter 7 when its turn comes, and whether the end
// is good. It stands on `rules`, which says what legal is, on the values of `relation` and `plancheck_state`, on
// `plancheck_group` and on `plancheck_end`; it uses nothing of what finds plans. A judge of its own: the call is `check_plan`.
#![tactic(auto)]

mod check;
mod held;
mod quiet;
mod remove;
mod stanzas;
mod step;
mod table;
mod unpack;

pub use check::check_plan;
pub use held::{is_not_held, stands_as};
pub use quiet::is_quiet;
pub use remove::is_met_without;
pub use stanzas::{stanza_at, stanzas_for};
pub use step::{apply, legal};
pub use table::{
    configure_failing, deconfigure_failing, purge_failing, remove_failing, unpack_failing,
};
pub use unpack::is_satisfied;
