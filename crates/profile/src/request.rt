// What the words ask for.
ghost use Rattle.std.specs.Prelude.{◌≡◌, map, string_bytes};
ghost use Rattle.std.specs.Option.{option_map};
ghost use Rattle.profile.specs.Due.{request_in, request_named, request_value, request_with};

use command_ends::Words;

/// How the samples are written.
#[derive(Clone, Copy, Debug, PartialEq, Eq)]
pub enum Form {
    /// Each distinct stack once, with the number of the samples that show it.
    Folded,
    /// One after another, in the text form of `perf script`.
    Script,
}

/// What the words ask for.
#[derive(Clone, Copy)]
pub struct Request<'w> {
    /// How the samples are written.
    pub form: Form,
    /// The file of the tables.
    pub path: &'w str,
}

/// The file of the tables, which is the last word, and how the samples are written.
pub fn request_of(words: &Words) -> Option<Request<'_>>
    ensures { option_map request_value result ≡ request_in words.now }
{
    request_in(words.as_slice())
}

fn request_in(words: &[String]) -> Option<Request<'_>>
    ensures { option_map request_value result ≡
        request_in (map (λ word. string_bytes word) words.now) }
{
    match words {
        [word] => request_named(word.as_str()),
        [option, word] => request_with(option.as_str(), word.as_str()),
        _ => None,
    }
}

fn request_named(word: &str) -> Option<Request<'_>>
    ensures { option_map request_value result ≡ request_named word.now }
{
    match word {
        "--script" => None,
        path => Some(Request {
            form: Form::Folded,
            path,
        }),
    }
}

fn request_with<'w>(option: &str, path: &'w str) -> Option<Request<'w>>
    ensures { option_map request_value result ≡ request_with option.now path.now }
{
    match option {
        "--script" => Some(Request {
            form: Form::Script,
            path,
        }),
        _ => None,
    }
}
