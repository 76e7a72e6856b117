//! What the words of the command line are read as.
ghost use Rattle.std.specs.Prelude.{◌≡◌, map, option_map};
ghost use Rattle.canoffice_jobs.specs.Meant.{is_help_of_help, name_before_help};

/// The program's name, if these words are it and `help --help` or `help -h`. They are read as `help help`, since clap's
/// own subcommand `help` has no flag.
#[tactic(auto, using(crate::proofs::ThreeWords::none_of_others, crate::proofs::ThreeWords::by_three))]
pub fn name_before_help<'a>(words: &[&'a str]) -> Option<&'a str>
    ensures { option_map (λ name. name.now) result ≡ name_before_help (map (λ s. s.now) words.now) }
{
    if words.len() != 3 {
        return None;
    }
    if is_help_of_help(words[1], words[2]) {
        return Some(words[0]);
    }
    None
}

/// Whether a command and a flag are `help --help` or `help -h`.
fn is_help_of_help(command: &str, flag: &str) -> bool
    ensures { result ≡ is_help_of_help command.now flag.now }
{
    let is_help = command == "help";
    let is_long = flag == "--help";
    let is_short = flag == "-h";
    is_help & (is_long | is_short)
}
