// What a command line asks for.

/// Which packages there are, and what is preferred among them.
#[derive(Clone, Copy)]
pub struct Options<'a> {
    /// The architecture.
    pub arch: &'a str,
    /// The path of the status file.
    pub status: &'a str,
    /// The path of the sources.
    pub sources: &'a str,
    /// The path of the preferences, if there are any.
    pub preferences: Option<&'a str>,
    /// The target release, if there is one.
    pub target: Option<&'a str>,
}

/// How a version is to stand to another (deb-version(7)).
#[derive(Clone, Copy)]
pub enum Relation {
    /// `lt`: before it.
    Earlier,
    /// `le`: before it or equal.
    EarlierOrEqual,
    /// `eq`: equal.
    Equal,
    /// `ne`: not equal.
    NotEqual,
    /// `ge`: equal or behind it.
    LaterOrEqual,
    /// `gt`: behind it.
    Later,
}

/// What a request is read from.
#[derive(Drop)]
pub enum RequestSource<'a> {
    /// The file at this path, where `-` is standard input.
    File(&'a str),
    /// These goals in their order, each a line of its own.
    Goals(Vec<&'a str>),
}

/// How much of a request has to be fulfilled.
#[derive(Clone, Copy)]
pub enum Extent<'a> {
    /// All of it.
    Whole {
        /// Whether the pairs of a refutation are named, so that its text is of version 2.
        names_pairs: bool,
    },
    /// As much as can be; what is left of the request is written at this path, if there is one.
    Possible(Option<&'a str>),
}

/// Which of the packages in their order are asked about: the K-th of every N.
#[derive(Clone, Copy)]
pub struct ShardNumber {
    /// K, from 1 to N.
    pub number: u32,
    /// N.
    pub of: u32,
}

/// Which packages of the indices are asked about, and what is asked for beside each.
#[derive(Drop)]
pub struct Survey<'a> {
    /// Their names, in the order of the words; all packages are asked about where there are none.
    pub names: Vec<&'a str>,
    /// Whether all versions are asked for.
    pub asks_all_versions: bool,
    /// Whether essential packages are not asked for beside each.
    pub without_essential: bool,
    /// Which of them.
    pub shard: ShardNumber,
    /// The conflicts after which each search gives up.
    pub limit: u32,
}

/// How an answer is written.
#[derive(Clone, Copy)]
pub enum Format {
    /// In the lines of each command.
    Text,
    /// As a JSON text (RFC 8259).
    Json,
}

/// What a command line asks for. Each text is a word of it, or what stands in a word behind `--NAME=`. Where a call explains, its
/// answer is to be told in sentences too.
#[derive(Drop)]
pub enum Call<'a> {
    /// To compare two versions.
    Compare {
        /// The version.
        version: &'a str,
        /// How it is to stand to the other.
        relation: Relation,
        /// The other version.
        other: &'a str,
    },
    /// To name the candidate of each name, which need not be that of a package.
    Candidate {
        /// By these files.
        options: Options<'a>,
        /// The names, one or more, in their order.
        names: Vec<&'a str>,
        /// Whether the call explains.
        explains: bool,
        /// How the answer is written.
        format: Format,
    },
    /// To solve a request.
    Solve {
        /// By these files.
        options: Options<'a>,
        /// The request.
        request: RequestSource<'a>,
        /// The conflicts after which the search gives up.
        limit: u32,
        /// How much of the request has to be fulfilled.
        extent: Extent<'a>,
        /// Whether the call explains.
        explains: bool,
        /// How the answer is written.
        format: Format,
    },
    /// To judge a plan.
    CheckPlan {
        /// By these files.
        options: Options<'a>,
        /// The request.
        request: RequestSource<'a>,
        /// The path of the plan, where `-` is standard input.
        plan: &'a str,
        /// Whether the call explains.
        explains: bool,
        /// How the answer is written.
        format: Format,
    },
    /// To judge a refutation.
    CheckRefutation {
        /// By these files.
        options: Options<'a>,
        /// The request.
        request: RequestSource<'a>,
        /// The path of the refutation, where `-` is standard input.
        refutation: &'a str,
        /// Whether the call explains.
        explains: bool,
        /// How the answer is written.
        format: Format,
    },
    /// To carry a plan out.
    Apply {
        /// By these files.
        options: Options<'a>,
        /// The request.
        request: RequestSource<'a>,
        /// The path of the plan, where `-` is standard input.
        plan: &'a str,
        /// The path of the journal.
        journal: &'a str,
        /// The path of the output.
        output: &'a str,
    },
    /// To say of each package whether it can be installed.
    Installable {
        /// By these files.
        options: Options<'a>,
        /// Of these packages.
        survey: Survey<'a>,
        /// The path of the folder of refutations, if there is one.
        refutations: Option<&'a str>,
        /// Whether the call explains.
        explains: bool,
        /// How the answer is written: as JSON, a line is a text of its own.
        format: Format,
    },
    /// To answer the questions of standard input.
    Batch {
        /// By these files.
        options: Options<'a>,
        /// The conflicts after which each search gives up.
        limit: u32,
    },
}
