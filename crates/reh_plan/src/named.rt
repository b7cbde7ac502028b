// The bookies that words name.
ghost use Rattle.std.specs.Prelude.{◌≡◌, ◌<◌, not, IfErr, IfOk, is_some, position};
ghost use Rattle.reh_types.specs.declared.limits.TheConstants.{MAX_BOOKIES};
ghost use Rattle.reh_types.specs.Sets as set;
ghost use Rattle.reh_model.specs.Cluster.{bookie_named};
ghost use Rattle.reh_plan.specs.Named.{AreNamed, IsNamedTwice};

use reh_cluster::Names;
use reh_types::{BookieIx, BookieSet};

/// A word names a bookie that a word before it names.
#[derive(Clone, Copy)]
pub struct NamedTwice {
    /// The number of the word, from 0.
    pub word: usize,
}

/// The bookies that these words name, or the first word that names one again. Words that name none are passed over.
pub fn find_bookies(names: &Names, words: &[&str]) -> Result<BookieSet, NamedTwice>
    ensures named { IfOk result (λ bookies. AreNamed names.now words.now bookies) }
    ensures fault { IfErr result (λ fault. IsNamedTwice names.now words.now fault.word) }
{
    let _limit = names.len();
    let mut bookies = BookieSet::new();
    for number in 0..words.len() {
        let Some(bookie) = names.find(words[number].as_bytes()) else {
            continue;
        };
        if !add(&mut bookies, bookie) {
            return Err(NamedTwice { word: number });
        }
    }
    Ok(bookies)
}

/// Puts the bookie into the set, and says whether it is new there.
fn add(bookies: &mut BookieSet, bookie: BookieIx) -> bool
    requires { bookie < MAX_BOOKIES }
    ensures new { result ≡ not (set.contains bookies.old bookie) }
    ensures added { bookies.new ≡ set.insert bookies.old bookie }
{
    let is_new = !bookies.contains(bookie);
    bookies.insert(bookie);
    is_new
}

/// The first word that names no bookie, if there is one.
pub fn first_unknown(names: &Names, words: &[&str]) -> Option<usize>
    ensures { result ≡ position (λ word. not (is_some (bookie_named names.now word.now))) words.now }
{
    for (number, word) in words.iter().enumerate() {
        if !has(names, word) {
            return Some(number);
        }
    }
    None
}

/// Whether there is a bookie of that name.
fn has(names: &Names, word: &str) -> bool
    ensures { result ≡ is_some (bookie_named names.now word.now) }
{
    names.find(word.as_bytes()).is_some()
}
