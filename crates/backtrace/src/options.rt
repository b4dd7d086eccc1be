// What the words ask for.
ghost use Rattle.std.specs.Prelude.{◌≡◌, map, string_bytes};
ghost use Rattle.backtrace.specs.Options.{options_of, plain, with_option};

use command_ends::Words;

/// What the words ask for.
#[derive(Clone, Copy, Debug, PartialEq, Eq)]
pub struct Options {
    /// Whether a frame's line has the stack pointer and the registers that calls keep too.
    pub registers: bool,
    /// Whether the input has many threads, each a sample, and no start of its own.
    pub samples: bool,
    /// Whether a backtrace goes on by frame pointers where no table describes the code.
    pub frame_pointers: bool,
}

/// The options that the words name.
pub fn options_of(words: &Words) -> Option<Options>
    ensures { result ≡ options_of words.now }
{
    options_in(words.as_slice())
}

fn options_in(words: &[String]) -> Option<Options>
    ensures { result ≡ options_of (map (λ word. string_bytes word) words.now) }
{
    match words {
        [] => Some(plain()),
        [word] => with_option(word.as_str(), plain()),
        [word, other] => {
            let options = with_option(word.as_str(), plain())?;
            with_option(other.as_str(), options)
        }
        [word, other, third] => {
            let options = with_option(word.as_str(), plain())?;
            let options = with_option(other.as_str(), options)?;
            with_option(third.as_str(), options)
        }
        _ => None,
    }
}

fn plain() -> Options
    ensures { result ≡ plain }
{
    Options {
        registers: false,
        samples: false,
        frame_pointers: false,
    }
}

fn with_option(word: &str, options: Options) -> Option<Options>
    ensures { result ≡ with_option word.now options }
{
    match word {
        "--registers" => Some(Options {
            registers: true,
            ..options
        }),
        "--samples" => Some(Options {
            samples: true,
            ..options
        }),
        "--frame-pointers" => Some(Options {
            frame_pointers: true,
            ..options
        }),
        _ => None,
    }
}
