//! The texts that say how to call the program.

/// The version number.
pub(crate) const VERSION: &str = "0.1.0";

/// The line that `--version` prints.
pub const VERSION_LINE: &str = "youtopia 0.1.0\n";

/// The text that `--help` prints, at most 80 columns wide.
pub const HELP: &str = "\
Youtopia keeps a repository of tuples with labelled nulls, and repairs it by
mappings while several curators update it.

Usage: youtopia COMMAND [OPTIONS] < SESSION

Commands:
  run       run the updates; print how each ended, and the repository they left
  serial    the same, one update after the other, in one thread
  format    print the session in its own format
  check     check the session and its base, and count its parts
  save      run the updates, and print what they left as a session
  upgrade   print the session in the newest format
  ask       run the updates; print the certain answers to a query
  explain   run the updates; print why a tuple is in what they left
  audit     read a session and a trace; tell whether the trace is of a legal run
  drill     run the updates of a generated session; print what that comes to
  journal   run the updates, and write what they commit as a journal
  recover   read a journal; print its number of commits and what they left

Options:
  --workers N   how many workers run updates, 1 to 16 [4]
  --deps KIND   which writes a read depends on, coarse or precise [precise]
  --steps N     how many steps an update may take, 1 to 300 [100]
  --retries N   how often an update is tried again before it waits, 0 to 4 [3]
  --trace       print the trace of the run after the result
  --query TEXT  the query to ask, as in 'q(x): R(x, y), S(y)'
  --tuple FACT  the tuple to explain, as in 'R(1, ?2.1)'
  --count N     how many updates are generated, 1 to 1000 [60]
  --seed N      the seed of the generator, 0 to 4294967295 [1]
  -h, --help    print this text
  -V, --version print the version

Statuses:
  0 done   1 stuck at a frontier   2 words refused   3 session refused
  4 base violates a mapping   5 read fault   6 write fault
  7 out of memory   8 input too long   9 result too large   10 trace refuted
  11 query refused   12 journal damaged

Example:
  youtopia run --steps 50 < travel.session
";
