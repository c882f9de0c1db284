//! The words that follow a log.
ghost use Rattle.std.specs.Prelude.{◌≡◌};
ghost use Rattle.std.specs.Option.{option_map};
ghost use Rattle.sv_follow.specs.LogWords.{is_following, log_in, stream_of};

use sv_base::{Stream, Text};

/// The name of the process and the stream, where a command's words are `tail -f NAME`, after which `stdout` or `stderr` may
/// stand; none exactly where they are others.
pub(crate) fn log_in(command: &[Text]) -> Option<(&str, Stream)>
    ensures { option_map (λ log. (log.0.now, log.1)) result ≡ log_in command.now }
{
    match command {
        [action, option, name] if is_following(action, option) => {
            Some((name.as_str(), Stream::Out))
        }
        [action, option, name, stream] if is_following(action, option) => {
            Some((name.as_str(), stream_of(stream.as_str())?))
        }
        _ => None,
    }
}

fn is_following(action: &Text, option: &Text) -> bool
    ensures { result ≡ is_following action.now option.now }
{
    action.as_str() == "tail" && option.as_str() == "-f"
}

fn stream_of(word: &str) -> Option<Stream>
    ensures { result ≡ stream_of word.now }
{
    match word {
        "stdout" => Some(Stream::Out),
        "stderr" => Some(Stream::Err),
        _ => None,
    }
}
