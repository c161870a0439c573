//! Numbers as they are written.
ghost use Rattle.std.specs.Prelude.{◌≡◌};
ghost use Rattle.std.specs.List.{list_all};
ghost use Rattle.ldm_words.specs.Numbers.{number_of, is_digit};

use std::str;

fn all_digits(word: &[u8]) -> bool
    ensures { result ≡ list_all is_digit word.now }
{
    word.iter().all(|c| c.is_ascii_digit())
}

/// The number that the word is. `None` exactly where it is none.
#[tactic(auto, unfolding(crate::specs::Numbers::number_of, crate::specs::Numbers::is_number))]
pub fn read_number(word: &[u8]) -> Option<u64>
    ensures { result ≡ number_of word.now }
{
    if word.is_empty() || word.len() > 20 || !all_digits(word) {
        return None;
    }
    let text = str::from_utf8(word).ok()?;
    text.parse().ok()
}
