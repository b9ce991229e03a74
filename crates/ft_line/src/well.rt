// Whether a request was granted and did not fail.
ghost use Rattle.std.specs.Prelude.{◌≡◌};
ghost use Rattle.ft_line.specs.Wells.{is_well};

use ft_core::Answer;
use ft_posix::Reply;

/// Returns whether a request was granted and did not fail.
pub fn is_well(answer: &Answer) -> bool
    ensures { result ≡ is_well answer.now }
{
    match answer {
        Answer::Granted {
            reply: Reply::Failed(_),
            ..
        }
        | Answer::Waits { .. }
        | Answer::Refused(_) => false,
        _ => true,
    }
}
