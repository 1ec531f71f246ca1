//! Each of several requests, asked over one reading of texts in memory.
use cli_engine::{Answered, Notes, Solve};
use inputs::{Each, Fault, Inputs, Refusal, Settings, ask_bytes};
use rules::Items;
use std::alloc::Global;

const SETTINGS: Settings<'static> = Settings {
    arch: b"amd64",
    target: None,
};

const SOLVE: Solve = Solve {
    limit: 0,
    names_pairs: false,
    tells_reasons: false,
    has_document: false,
};

const INPUTS: Inputs<'static, 'static> = Inputs {
    status: b"",
    sources: b"",
    indices: &[],
    preferences: None,
    request: b"",
};

// What is answered to each of the requests.
fn answers(alloc: Global, requests: &[&[u8]]) -> Result<Items<Result<Answered, Refusal>>, Refusal> {
    let question = Each {
        requests,
        asks_all_versions: false,
        question: SOLVE,
    };
    let mut notes = Notes::new(alloc);
    ask_bytes(alloc, &INPUTS, None, &SETTINGS, &question, &mut notes)
}

// Whether the first request is answered, and the second refused at its first name.
fn are_answered(answers: &[Result<Answered, Refusal>]) -> bool {
    matches!(answers, [Ok(_), Err(refusal)] if matches!(refusal.fault, Fault::UnknownName(1)))
}

#[test]
fn each_request_is_answered_over_one_reading(rt: HostRuntime) {
    let requests: [&[u8]; 2] = [b"no-remove\n", b"install foo\n"];
    let answer = answers(rt.alloc(), requests.as_slice());
    assert!(rt; matches!(&answer, Ok(answers) if are_answered(answers.as_slice())));
}
