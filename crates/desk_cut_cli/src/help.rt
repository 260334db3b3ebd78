//! What the program says about itself.

/// The usage, the arguments and the options.
pub(crate) fn usage() -> &'static str {
    "Begin a store with what stays of another one's history

Usage: desk-cut [OPTIONS] <OLD> <NEW> <T>

Arguments:
  <OLD>  The store whose messages are cut; it is only read, and may be served
  <NEW>  The store that begins: OLD's roster, each request, and the verdicts on requests that had
         not ended at T
  <T>    The moment, as yyyymmddHHMMSSZ, a day and more behind this machine's clock

Options:
      --archive <FILE>  Write the verdicts that NEW lacks to this file, one a line
  -h, --help            Print help

Exit status: 0 where NEW is there, 2 where nothing was done.
"
}
