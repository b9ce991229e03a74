// The names of jobs.
ghost use Rattle.std.specs.Prelude.{◌≡◌, ◌||◌, ◌==◌, ℕ, List, Some, None, string_bytes, nat_eq, if◌then◌else◌};
ghost use Rattle.std.specs.Char.{is_ascii_digit, is_ascii_lowercase};
ghost use Rattle.std.specs.List.{list_all};
ghost use Rattle.std.specs.Cmp.{partial_equiv_from_equiv};
ghost use Rattle.std.specs.Cmp.Lexicographic.{pointwise, nat_list_eq_equiv};
ghost use Rattle.ft_words.specs.Calls.{Reads};
ghost use Rattle.ft_plan.specs.Lines.{job_name_of, is_name_byte};

use ft_words::ParseError;
use std::alloc::Global;
use std::marker::Model;
use std::{fmt, str};

/// The most bytes of a name.
const LONGEST_NAME: usize = 32;

/// The name of a job: 1 to 32 of the bytes a to z, 0 to 9, `_` and `-`.
#[derive(Debug, Drop)]
pub struct JobName {
    text: String,
}

impl Model for JobName {
    ghost use Rattle.std.specs.Prelude.{ℕ, List, string_bytes};

    ghost Value = { List ℕ };

    ghost view = { λ name. string_bytes name.text };
}

impl JobName {
    /// Returns the name that a word is, if it is one.
    #[tactic(auto, using(crate::proofs::Naming::is_text, crate::proofs::Naming::is_name))]
    pub fn read(alloc: Global, word: &[u8]) -> Result<JobName, ParseError>
        ensures { Reads result (job_name_of word.now) }
    {
        if word.is_empty() || word.len() > LONGEST_NAME || !are_name_bytes(word) {
            return Err(ParseError::Misspelt);
        }
        match str::from_utf8(word) {
            Ok(text) => Ok(JobName {
                text: String::from_str(alloc, text)?,
            }),
            Err(_) => Err(ParseError::Misspelt),
        }
    }

    /// Returns the bytes of the name.
    pub fn as_bytes(&self) -> &[u8]
        ensures { result.now ≡ self.now }
    {
        self.text.as_bytes()
    }
}

impl PartialEq for JobName {
    ghost eq = { pointwise nat_eq };

    ghost laws = { partial_equiv_from_equiv nat_list_eq_equiv };

    fn eq(&self, other: &JobName) -> bool {
        self.as_bytes() == other.as_bytes()
    }
}

impl Eq for JobName {
    ghost laws = { nat_list_eq_equiv };
}

impl fmt::Display for JobName {
    ghost output = { λ name. Some name };

    fn fmt<W: fmt::Write>(&self, f: &mut fmt::Formatter<W>) -> fmt::Result {
        f.write_str(self.text.as_str())
    }
}

/// Returns whether a name may have this byte.
fn is_name_byte(byte: u8) -> bool
    ensures { result ≡ is_name_byte byte }
{
    byte.is_ascii_lowercase() || byte.is_ascii_digit() || byte == b'_' || byte == b'-'
}

/// Returns whether a name may have each of these bytes.
fn are_name_bytes(word: &[u8]) -> bool
    ensures { result ≡ list_all is_name_byte word.now }
{
    word.iter().all(|&byte| is_name_byte(byte))
}
