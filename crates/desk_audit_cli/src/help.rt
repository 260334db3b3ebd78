//! What the program says about itself.

/// The usage, the arguments and the options.
pub(crate) fn usage() -> &'static str {
    "Tell what became of each request that a desk holds

Usage: desk-audit [OPTIONS] <ROSTER> <BASE> <STORE> [ARCHIVE]...

Arguments:
  <ROSTER>  The roster's file
  <BASE>    The base policy's file
  <STORE>   The database of the messages, which is only read; `-`: standard input
  [ARCHIVE]...  What desk-cut took from the store: all is told as before the cut

Options:
      --from <AT>       Only windows that do not end before this moment
      --until <AT>      Only windows that do not begin after it
      --host <H>        Only requests that name this host
      --person <P>      Only what this person asked for or gave a verdict on
      --json            Print one document of JSON
  -h, --help            Print help

Exit status: 0 where it is told, 2 where nothing is.
"
}
