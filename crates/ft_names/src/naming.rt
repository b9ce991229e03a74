// The names of a script, and what they stand for.
ghost use Rattle.std.specs.Prelude.{◌≡◌, option_copied, OnOk};
ghost use Rattle.ft_names.specs.Names.{HasRoom, names_after, names_of, no_names, number_given, with_name};

use ft_base::Memory;
use ft_calls::Reply;
use ft_core::Answer;
use std::alloc::Global;
use std::collections::BTreeMap;

/// The names of a script, each with the number that it stands for.
#[derive(Drop)]
pub struct Names {
    /// A name without a number has only its room here.
    pub(crate) numbers: BTreeMap<Vec<u8>, Option<u64>>,
}

impl Names {
    /// Returns no names. Takes no memory.
    pub fn new(alloc: Global) -> Names
        ensures { names_of result ≡ no_names }
    {
        Names {
            numbers: BTreeMap::new(alloc),
        }
    }

    /// Returns the number that a name stands for, if it is known.
    pub fn get(&self, name: &[u8]) -> Option<u64>
        ensures { result ≡ names_of self.now name.now }
    {
        *self.numbers.get(name)?
    }

    /// Reserves room for the name that a line gives, if it gives one. Each name stands for the same
    /// number as before.
    pub fn reserve(&mut self, alloc: Global, given: Option<&[u8]>) -> Result<(), Memory>
        ensures same { names_of self.new ≡ names_of self.old }
        ensures room { OnOk result (HasRoom self.new (option_copied given.entry)) }
    {
        let Some(name) = given else {
            return Ok(());
        };
        if !self.numbers.contains_key(name) {
            let key = Vec::from_slice(alloc, name)?;
            self.numbers.insert(key, None)?;
        }
        Ok(())
    }

    /// Gives a name, if there is one, to the number in an answer. If the answer has no number, the
    /// name is not known afterwards. Takes no memory.
    pub fn give(&mut self, given: Option<&[u8]>, answer: &Answer)
        requires { HasRoom self.old (option_copied given) }
        ensures { names_of self.new
            ≡ names_after (option_copied given.entry) answer.now (names_of self.old) }
    {
        let Some(name) = given else {
            return;
        };
        self.set(name, number_given(answer));
    }

    /// Makes a name stand for a number, or for none. Takes no memory, since there is room for it.
    pub fn set(&mut self, name: &[u8], number: Option<u64>)
        requires { HasRoom self.old (Some name.now) }
        ensures { names_of self.new ≡ with_name name.now number (names_of self.old) }
    {
        let place = self.numbers.get_mut(name).unwrap();
        *place = number;
    }
}

/// Returns the number in an answer: that of the transaction that has begun, or the one that a call
/// has returned.
fn number_given(answer: &Answer) -> Option<u64>
    ensures { result ≡ number_given answer.now }
{
    match answer {
        Answer::Txn(txn) => Some(txn.0),
        Answer::Granted {
            reply: Reply::Number(number),
            ..
        } => Some(*number),
        _ => None,
    }
}
