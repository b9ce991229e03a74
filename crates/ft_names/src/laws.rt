// Laws of names. Each is the contract of a function that does nothing.
ghost use Rattle.std.specs.Prelude.{◌≡◌, ◌≢◌, ℕ, List, Option, None};
ghost use Rattle.std.specs.Str.Lines.{strip_carriage_return};
ghost use Rattle.ft_words.specs.Spelling.{words_of};
ghost use Rattle.ft_line.specs.Requests.{parse_line};
ghost use Rattle.ft_transfer.specs.declared.transfer.Transfer.{Transfer};
ghost use Rattle.ft_transfer.specs.Words.{transfer_of};
ghost use Rattle.ft_line.specs.declared.line.ScriptLine.TheVariants.{Bad};
ghost use Rattle.ft_names.specs.declared.meaning.LineMeaning.TheVariants as means;
ghost use Rattle.ft_names.specs.Names.{Naming, no_names};
ghost use Rattle.ft_names.specs.Meanings.{IsBadOtherwise, meaning_in, split_name};

/// States that names change nothing in a script that gives none: if no name is known, a line that
/// does not end in `as` and a name, and is no transfer, has the meaning that it has without names.
#[tactic(auto, using(crate::proofs::Unnamed::as_before))]
pub fn line_without_names()
    ensures { (bytes : List ℕ) → split_name (words_of (strip_carriage_return bytes)) ≡ None
        → transfer_of (words_of (strip_carriage_return bytes)) ≡ None
        → meaning_in no_names bytes ≡ (means.Line (parse_line bytes), None) }
{}

/// States that names and transfers change no line that is valid without them: it has the same
/// meaning, whatever names are known, and gives no name.
#[tactic(auto, using(crate::proofs::Unnamed::stays_valid))]
pub fn valid_line()
    ensures { (names : Naming) (bytes : List ℕ) → parse_line bytes ≢ Bad
        → meaning_in names bytes ≡ (means.Line (parse_line bytes), None) }
{}

/// States that only a line that is bad otherwise is a transfer: without names, with numbers in
/// place of names, and as a line that gives a name. A transfer gives no name.
pub fn transfer_line()
    ensures { (names : Naming) (bytes : List ℕ) (transfer : Transfer) (given : Option (List ℕ))
        → meaning_in names bytes ≡ (means.Transfer transfer, given)
        → IsBadOtherwise names bytes × (given ≡ None) }
{}
