//! What a word list counts.
ghost use Rattle.std.specs.Prelude.{◌≡◌};
ghost use Rattle.lists.specs.Calls.{Counted};

use crate::fault::ListFault;
use crate::list::WordList;
use words::word::Bounds;

/// The words of a list, and their hyphens within bounds.
#[derive(Clone, Copy, PartialEq, Eq, Debug)]
pub struct ListCounts {
    pub words: u64,
    pub hyphens: u64,
}

/// Reads a list from its first word to its end, and counts.
pub fn count_list<L: WordList>(list: &mut L, bounds: Bounds) -> Result<ListCounts, ListFault>
    ensures same { L.content list.new ≡ L.content list.old }
    ensures value { Counted bounds.left bounds.right (L.content list.old) result }
{
    list.rewind();
    let mut words = 0;
    let mut hyphens = 0;
    // A list is no iterator: its `next` may be asked again at the end, and answers the fault each time.
    while let Some(word) = list.next()? {
        words += 1;
        hyphens += u64::from(word.hyphens_within(bounds));
    }
    Ok(ListCounts { words, hyphens })
}
