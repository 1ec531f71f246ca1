// A line of standard input as a question: a JSON object (RFC 8259) that asks for a plan, a verdict or candidates, beside inputs that
// were read before. It stands on `serde_json` alone, and answers nothing. The main type is `Posed`, and the call `question_of`.
#![tactic(auto)]

mod asked;
mod member;
mod mistake;
mod posed;
mod question;
mod request;
mod stray;

pub use mistake::Mistake;
pub use posed::{Ask, Posed};
pub use question::question_of;
