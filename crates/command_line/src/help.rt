// What the program says of itself.

/// The version of the program.
pub(crate) const VERSION: &str = "0.1.0";

/// The version of the program, and the toolchain that proves it (`rt version`).
pub(crate) const VERSION_AND_TOOLCHAIN: &str =
    "0.1.0\ntoolchain: rattle-kit-13f logic dac8208d650f15bf";

/// Of which versions an answer speaks, and what each exit status means, as it stands below the help of each command.
pub(crate) const ANSWERS: &str =
    "A refutation shows that no choice among the admitted versions fulfils the request.
Admitted are, of each package, the installed version, the candidate, and each version that a goal
names, as in install hello (= 2.10-3); where the request has a line all-versions, each version that
may become the candidate; of a held package, the installed version alone. The installed version is
kept where it can be, else the candidate comes wherever it can be had: an older one comes only where
what is chosen besides leaves no other, and --explain names it.
The goals, the form of the sources file and examples: debplan --help

Exit status:
  0  yes, a plan, a candidate of each name, packages that can all be installed, a plan carried out, or help
  1  no, a refutation, a name without a candidate, or a package that can't be installed
  2  undecided: the search gave up, no order of steps was found, or a package that is undecided
  3  an input is malformed, or the journal is another plan's: standard error names the file, the fault and its place
  4  the command line is wrong
  5  a file can't be read, memory is exhausted, or the answer, the journal or the output can't be written";

/// What the questions of a batch and their answers are, as it stands below its help.
pub(crate) const QUESTIONS: &str =
    "Each line of standard input is a JSON object, as docs/FORMATS.md says, and is answered by one line of JSON.
The goals, the form of the sources file and examples: debplan --help";

/// What a request and a sources file are, with examples, as it stands below the help of the program.
pub(crate) const GUIDE: &str =
    "A request is a file with a goal on each line, or the goals of --goal, each a line of its own.

Goals:
  install NAME [(REL VERSION)]  it is installed, in a version that stands so to VERSION
  remove NAME                   it is not installed
  purge NAME                    the same, and its configuration files are gone
  upgrade NAME                  its candidate is installed
  upgrade-all                   each installed package has its candidate, but for held ones
  no-remove                     each installed package stays installed, in some version
REL is <<, <=, =, >= or >>, as in install hello (>= 2.10).
install X is content with an X that stands. upgrade X brings the candidate, and installs it where X
is missing. Recommends, autoremove and auto marks aren't known.

A refutation shows that no choice among the admitted versions fulfils the request: it is about these
alone. Admitted are, of each package, the installed version, the candidate, and each version that a
goal names, as in install hello (= 2.10-3); where the request has a line all-versions, which is no
goal, each version that may become the candidate; of a held package, the installed version alone.
The installed version is kept where it can be, else the candidate comes wherever it can be had: an
older one comes only where what is chosen besides leaves no other, and --explain names it.

A sources file has a stanza for each index, and an empty line between two:
  File: index-1.Packages
  Suite: stable
  Codename: bookworm
  Component: main
  Origin: Debian
  Host: deb.debian.org
File is the path of an uncompressed Packages file. The other fields are what pins and --target match.

Two examples, over the packages of this machine:
  debplan solve --arch amd64 --status /var/lib/dpkg/status --sources sources --goal 'install hello'
  debplan candidate --arch amd64 --status /var/lib/dpkg/status --sources sources hello bash
The request, the plan and the refutation are read from standard input where their path is -.

Exit status:
  0  yes, a plan, a candidate of each name, packages that can all be installed, a plan carried out, or help
  1  no, a refutation, a name without a candidate, or a package that can't be installed
  2  undecided: the search gave up, no order of steps was found, or a package that is undecided
  3  an input is malformed, or the journal is another plan's: standard error names the file, the fault and its place
  4  the command line is wrong
  5  a file can't be read, memory is exhausted, or the answer, the journal or the output can't be written";

/// What is said of a command that there is none of, behind what is wrong with it.
pub const COMMANDS: &str =
    "Commands: compare, candidate, solve, check-plan, check-refutation, apply, installable, batch, help\n";

/// What the word for the relation of a comparison is, of which `clap` takes any.
pub(crate) const RELATION_HELP: &str =
    "How V is to compare to W, as for dpkg --compare-versions [possible values: lt, le, eq, ne, ge, gt]";

/// What `--keep-back` does.
pub(crate) const KEEP_BACK_HELP: &str =
    "Leave out goals that can't be fulfilled, one after the other, until there is a plan, and say on standard error which";

/// What the status file is of a command that may do without one.
pub(crate) const ARCHIVE_STATUS_HELP: &str =
    "The status file of dpkg; nothing is installed where it is not given";

/// What `--without-essential` does.
pub(crate) const WITHOUT_ESSENTIAL_HELP: &str =
    "Ask for each package alone, and not for the essential packages beside it";

/// What `--shard` does.
pub(crate) const SHARD_HELP: &str =
    "Ask of the K-th of every N packages alone, in their order, so that N runs ask of all";

/// What `--refutation-format` does.
pub(crate) const REFUTATION_FORMAT_HELP: &str =
    "The version of the text of a refutation, 1 if not given: 1 has the numbers of pairs, 2 their names and versions";

/// What `--refutations` does.
pub(crate) const REFUTATIONS_HELP: &str =
    "The folder in which a refutation is written for each package that can't be installed";

/// The usage of each command with a request, of which there are two kinds of options.
pub(crate) const SOLVE_USAGE: &str =
    "debplan solve [OPTIONS] --arch <ARCH> --status <FILE> --sources <FILE> <--request <FILE>|--goal <TEXT>...>";

pub(crate) const CHECK_PLAN_USAGE: &str =
    "debplan check-plan [OPTIONS] --arch <ARCH> --status <FILE> --sources <FILE> <--request <FILE>|--goal <TEXT>...> <PLAN>";

pub(crate) const CHECK_REFUTATION_USAGE: &str =
    "debplan check-refutation [OPTIONS] --arch <ARCH> --status <FILE> --sources <FILE> <--request <FILE>|--goal <TEXT>...> <REFUTATION>";

pub(crate) const APPLY_USAGE: &str =
    "debplan apply [OPTIONS] --arch <ARCH> --status <FILE> --sources <FILE> <--request <FILE>|--goal <TEXT>...> --journal <FILE> --output <FILE> <PLAN>";
