//! The three words of a desk: the next ticket, and the least number told in each class.

ghost use Rattle.std.specs.Prelude.{◌≡◌};
ghost use Rattle.lit_desk.specs.Internal.Words.{word_of, number_in};

use crate::class::Class2;

pub(crate) const TICKET_WORD: usize = 0;

pub(crate) const MET_WORD: usize = 1;

pub(crate) const UNMET_WORD: usize = 2;

/// In a class's word: no number was told.
pub(crate) const NONE_TOLD: u64 = u64::MAX;

/// The word of a class.
pub(crate) fn word_of_class(class: Class2) -> usize
    ensures { result ≡ word_of class }
{
    match class {
        Class2::Met => MET_WORD,
        Class2::Unmet => UNMET_WORD,
    }
}

/// The number that a class's word stands for.
pub(crate) fn number_in_word(word: u64) -> Option<u64>
    ensures { result ≡ number_in word }
{
    if word == NONE_TOLD { None } else { Some(word) }
}
