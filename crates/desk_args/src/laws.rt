//! Laws of the command line and worked command lines, each the contract of a function that does
//! nothing.

ghost use Rattle.std.specs.Prelude.{◌≡◌, ◌++◌, List, [], ◌∷◌, Option, None, Some, codes, replicate};
ghost use Rattle.std.specs.Prelude.{true};
ghost use Rattle.std.specs.List.{list_all};
ghost use Rattle.clap.specs.Words.{Text as Word, fault_of, subcommand_of};
ghost use Rattle.desk_args.specs.CommandLine.{IsCommandLine, HasAllValues, desk_app};
ghost use Rattle.desk_args.specs.CommandLine.{SaysAddress, SaysNoAddress, SaysSync};
ghost use Rattle.desk_args.specs.Operands.{SaysByPlace, is_operand};
ghost use Rattle.desk_args.specs.declared.task.Address.{Address as Listened};
ghost use Rattle.desk_args.specs.declared.task.Address.TheVariants.{Tcp, Unix};
ghost use Rattle.desk_args.specs.declared.task.Job.{Job as Task};
ghost use Rattle.desk_args.specs.declared.task.Job.TheVariants as jobs;
ghost use Rattle.desk_args.specs.declared.task.Store.TheVariants as stores;
ghost use Rattle.desk_args.specs.declared.task.Sync.{Sync as Often};
ghost use Rattle.desk_args.specs.declared.task.Sync.TheVariants.{Once, Twice};

/// Words that do not begin with `-` (except `-`) are positional.
pub fn by_place()
    ensures { (program : Word) (words : List Word) (job : Task) → list_all is_operand words ≡ true
        → SaysByPlace words job → IsCommandLine (program ∷ words) job }
{}

/// `desk decide base.sudo ann db1 root 20260105093000Z /bin/ls -- -l x`, at 1,767,605,400 seconds:
/// `--` comes before an argument that begins with `-`.
pub fn decides_with_flag()
    ensures { IsCommandLine (codes "desk" ∷ codes "decide" ∷ codes "base.sudo" ∷ codes "ann"
        ∷ codes "db1" ∷ codes "root" ∷ codes "20260105093000Z" ∷ codes "/bin/ls"
        ∷ codes "--" ∷ codes "-l" ∷ codes "x" ∷ []) (jobs.Decide (codes "base.sudo") (record {
          user = codes "ann";
          host = codes "db1";
          runas = codes "root";
          path = codes "/bin/ls";
          args = codes "-l" ∷ codes "x" ∷ [];
          at = 1_767_605_400;
        })) }
{}

/// `desk beyond new.sudo old.sudo --host db1`
pub fn compares()
    ensures { IsCommandLine (codes "desk" ∷ codes "beyond" ∷ codes "new.sudo"
        ∷ codes "old.sudo" ∷ codes "--host" ∷ codes "db1" ∷ []) (jobs.Beyond (codes "new.sudo")
        (codes "old.sudo") (record { user = None; host = Some (codes "db1"); runas = None })) }
{}

/// `desk serve roster.toml base.sudo desk.db unix:/run/desk/desk.sock`
pub fn serves_at_socket()
    ensures { IsCommandLine (codes "desk" ∷ codes "serve" ∷ codes "roster.toml" ∷ codes "base.sudo"
        ∷ codes "desk.db" ∷ codes "unix:/run/desk/desk.sock" ∷ []) (jobs.Serve (record {
          roster = codes "roster.toml";
          base = codes "base.sudo";
          store = stores.File (codes "desk.db");
          sync = Once;
        }) (Unix (codes "/run/desk/desk.sock")) None None) }
{}

/// `desk serve roster.toml base.sudo desk.db unix:/run/desk/desk.sock --questions unix:/run/q.sock`
pub fn serves_questions_apart()
    ensures { IsCommandLine (codes "desk" ∷ codes "serve" ∷ codes "roster.toml" ∷ codes "base.sudo"
        ∷ codes "desk.db" ∷ codes "unix:/run/desk/desk.sock" ∷ codes "--questions"
        ∷ codes "unix:/run/q.sock" ∷ []) (jobs.Serve (record {
          roster = codes "roster.toml";
          base = codes "base.sudo";
          store = stores.File (codes "desk.db");
          sync = Once;
        }) (Unix (codes "/run/desk/desk.sock")) (Some (Unix (codes "/run/q.sock"))) None) }
{}

/// `desk deliver roster.toml base.sudo desk.db web --sync twice`
pub fn delivers_with_two_syncs()
    ensures { IsCommandLine (codes "desk" ∷ codes "deliver" ∷ codes "roster.toml"
        ∷ codes "base.sudo" ∷ codes "desk.db" ∷ codes "web" ∷ codes "--sync" ∷ codes "twice" ∷ [])
        (jobs.Deliver (record {
          roster = codes "roster.toml";
          base = codes "base.sudo";
          store = stores.File (codes "desk.db");
          sync = Twice;
        }) (codes "web")) }
{}

/// A command says at most one number of syncs, and says one sync where the option is left out.
pub fn one_sync()
    ensures unique { (given : Option Word) (a b : Often) → SaysSync given a → SaysSync given b
        → a ≡ b }
    ensures default { (sync : Often) → SaysSync None sync → sync ≡ Once }
    ensures none { SaysSync None Once }
{}

/// A text says one address at most.
pub fn one_address()
    ensures { (text : Word) (a b : Listened) → SaysAddress text a → SaysAddress text b → a ≡ b }
{}

/// Texts that say an address. The last has a path of 107 bytes, and the one before it ends as a
/// host and a port do.
pub fn worked_addresses()
    ensures loopback { SaysAddress (codes "127.0.0.1:0") (Tcp (codes "127.0.0.1:0")) }
    ensures colons { SaysAddress (codes "[::1]:8080") (Tcp (codes "[::1]:8080")) }
    ensures greatest { SaysAddress (codes "localhost:65535") (Tcp (codes "localhost:65535")) }
    ensures named { SaysAddress (codes "unix:80") (Tcp (codes "unix:80")) }
    ensures socket { SaysAddress (codes "unix:/run/desk.sock") (Unix (codes "/run/desk.sock")) }
    ensures ends { SaysAddress (codes "unix:/run/a:80") (Unix (codes "/run/a:80")) }
    ensures long { SaysAddress (codes "unix:/" ++ replicate 106 97)
        (Unix (codes "/" ++ replicate 106 97)) }
{}

/// Texts that say no address: without a colon, a host or a port; with a port of letters, of six
/// digits, past the greatest, and with a sign; with a path that is relative, is `/` alone, ends
/// with a slash, has a null byte, or has 108 bytes, also before a port.
pub fn worked_refusals()
    ensures empty { SaysNoAddress [] }
    ensures word { SaysNoAddress (codes "nonsense") }
    ensures portless { SaysNoAddress (codes "127.0.0.1") }
    ensures hostless { SaysNoAddress (codes ":0") }
    ensures bare { SaysNoAddress (codes "localhost:") }
    ensures letters { SaysNoAddress (codes "127.0.0.1:x") }
    ensures digits { SaysNoAddress (codes "127.0.0.1:000080") }
    ensures past { SaysNoAddress (codes "127.0.0.1:65536") }
    ensures signed { SaysNoAddress (codes "127.0.0.1:+80") }
    ensures relative { SaysNoAddress (codes "unix:relative") }
    ensures root { SaysNoAddress (codes "unix:/") }
    ensures folder { SaysNoAddress (codes "unix:/run/desk/") }
    ensures null { SaysNoAddress (codes "unix:/run/" ++ 0 ∷ codes "desk") }
    ensures long { SaysNoAddress (codes "unix:/" ++ replicate 107 97) }
    ensures both { SaysNoAddress (codes "unix:/" ++ replicate 107 97 ++ codes ":80") }
{}

/// A line in which clap finds no fault is a command of the program, with a value for each argument
/// that it wants.
pub fn no_fault_is_complete()
    ensures { (words : List Word) → fault_of desk_app words ≡ []
        → HasAllValues (subcommand_of desk_app words) }
{}
