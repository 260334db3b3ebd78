//! Which commands a policy may hold.

ghost use Rattle.std.specs.Prelude.{◌≡◌, ◌↔◌, ◌≤◌, IsTrue, MatchOption, count_by, length, true};
ghost use Rattle.std.specs.List.{AllByRecursion, flat_map};
ghost use Rattle.sudo_words.specs.Word.{is_arg};
ghost use Rattle.sudo_words.specs.Command as command;
ghost use Rattle.sudo_words.specs.Command.{IsArgRule, IsLawful, arg_text, cmnd_text};
ghost use Rattle.sudo_words.specs.Command.{most_args, arg_rule_text, spaced_arg};

use crate::arg::Arg;
use crate::arg_text::is_escaped;
use crate::cmnd::{ArgRule, Cmnd};
use crate::keyword::is_sudoedit;

/// The most bytes of a path.
const MOST_PATH_BYTES: usize = 255;

/// The most arguments that a rule lists.
pub const MOST_ARGS: usize = 16;

/// The most bytes of a command's text.
const MOST_CMND_BYTES: usize = 1024;

fn count_escaped(text: &[u8]) -> usize
    ensures { result ≡ count_by command.is_escaped text.now }
{
    text.iter().filter(|byte| is_escaped(**byte)).count()
}

/// The length of the argument's text, with its backslashes.
fn arg_length(arg: &Arg) -> usize
    ensures length { result ≡ length (arg_text arg.now) }
    ensures short { result ≤ 128 }
    ensures form { is_arg arg.now ≡ true }
{
    let text = arg.as_str().as_bytes();
    text.len() + count_escaped(text)
}

/// The length of the arguments' texts, with a space before each.
fn args_length(args: &[Arg]) -> usize
    requires { length args.now ≤ most_args }
    ensures length { result ≡ length (flat_map spaced_arg args.now) }
    ensures short { result ≤ 2064 }
    ensures forms { AllByRecursion (λ arg. is_arg arg ≡ true) args.now }
{
    let mut total = 0;
    for arg in args {
        total += 1 + arg_length(arg);
    }
    total
}

/// The length of the rule's text; `None` if the rule is a list of no arguments, or of too many.
fn rule_length(rule: &ArgRule) -> Option<usize>
    ensures { MatchOption result (¬ IsArgRule rule.now)
        (λ n. IsArgRule rule.now × (n ≡ length (arg_rule_text rule.now)) × (n ≤ 2064)) }
{
    match rule {
        ArgRule::Any => Some(0),
        ArgRule::Empty => Some(3),
        ArgRule::Exactly(args) => {
            let args = args.as_slice();
            if args.is_empty() || args.len() > MOST_ARGS {
                return None;
            }
            Some(args_length(args))
        }
    }
}

/// Whether a policy may hold the command: `ALL`, a directory, or a file with any arguments, none,
/// or 1 to 16 that are listed; its path has at most 255 bytes, and its text at most 1,024. No
/// file is `sudoedit`. It takes no memory.
pub fn is_lawful(cmnd: &Cmnd) -> bool
    ensures { IsTrue result ↔ IsLawful cmnd.now }
{
    match cmnd {
        Cmnd::All => true,
        Cmnd::Path(file, rule) => {
            let path = file.as_str().len();
            match rule_length(rule) {
                None => false,
                Some(args) => {
                    path <= MOST_PATH_BYTES
                        && path + args <= MOST_CMND_BYTES
                        && !is_sudoedit(file.as_str().as_bytes())
                }
            }
        }
        Cmnd::Dir(dir) => dir.as_str().len() <= MOST_PATH_BYTES,
    }
}

/// The length of the text that `print_cmnd` prints for the command. It takes no memory.
pub fn cmnd_len(cmnd: &Cmnd) -> usize
    requires { IsLawful cmnd.now }
    ensures { result ≡ length (cmnd_text cmnd.now) }
{
    match cmnd {
        Cmnd::All => 3,
        Cmnd::Path(file, rule) => match rule_length(rule) {
            Some(args) => file.as_str().len() + args,
            // A lawful command's rule has a length.
            None => 0,
        },
        Cmnd::Dir(dir) => dir.as_str().len(),
    }
}
