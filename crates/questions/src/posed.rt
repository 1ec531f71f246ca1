// What a question asks.
use serde_json::Value;

/// What a question asks.
#[derive(Drop)]
pub enum Ask {
    /// A plan for the request with this text, or a refutation.
    Solve {
        request: Vec<u8>,
        limit: Option<u32>,
        names_pairs: bool,
    },
    /// As much of the request with this text as can be.
    KeepBack {
        request: Vec<u8>,
        limit: Option<u32>,
    },
    /// The verdict on a plan.
    CheckPlan {
        request: Vec<u8>,
        plan: Vec<u8>,
    },
    /// The verdict on a refutation.
    CheckRefutation {
        request: Vec<u8>,
        refutation: Vec<u8>,
    },
    /// The candidates of names.
    Candidate {
        names: Vec<String>,
    },
    /// Which packages can be installed: those of these names, or all where there are none.
    Installable {
        names: Vec<String>,
        all_versions: bool,
        without_essential: bool,
        limit: Option<u32>,
    },
}

/// A question, and the value by which its answer is told from others.
#[derive(Drop)]
pub struct Posed {
    pub id: Value,
    pub ask: Ask,
}
