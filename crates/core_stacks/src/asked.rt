// What the words ask for.
ghost use Rattle.std.specs.Prelude.{◌≡◌, map, string_bytes};
ghost use Rattle.std.specs.Option.{option_map};
ghost use Rattle.core_stacks.specs.Due.{asked_alone, asked_with, core_asked};
ghost use Rattle.core_stacks.specs.Views.{asked_value};

use command_ends::Words;

/// What the words ask for.
#[derive(Clone, Copy)]
pub(crate) struct Asked<'w> {
    /// The path of the core.
    pub(crate) path: &'w str,
    /// Whether the functions of frames are named.
    pub(crate) names: bool,
}

/// The core, whose path is the last word, and whether names are asked for.
pub(crate) fn core_asked(words: &Words) -> Option<Asked<'_>>
    ensures { option_map asked_value result ≡ core_asked words.now }
{
    core_asked_in(words.as_slice())
}

fn core_asked_in(words: &[String]) -> Option<Asked<'_>>
    ensures { option_map asked_value result ≡
        core_asked (map (λ word. string_bytes word) words.now) }
{
    match words {
        [word] => asked_alone(word.as_str()),
        [option, word] => asked_with(option.as_str(), word.as_str()),
        _ => None,
    }
}

fn asked_alone(word: &str) -> Option<Asked<'_>>
    ensures { option_map asked_value result ≡ asked_alone word.now }
{
    match word {
        "--names" => None,
        path => Some(Asked { path, names: false }),
    }
}

fn asked_with<'w>(option: &str, path: &'w str) -> Option<Asked<'w>>
    ensures { option_map asked_value result ≡ asked_with option.now path.now }
{
    match option {
        "--names" => Some(Asked { path, names: true }),
        _ => None,
    }
}
