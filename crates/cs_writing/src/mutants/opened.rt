// The negatives whose edit puts a token, told without it.

ghost use Rattle.std.specs.Prelude.{IfSome, IsTrue, is_some};
ghost use Rattle.cs_writing.specs.Mutants.Rows.{IsInPair, IsOpened, IsOpenPairOf, Opens};

use cs_grammar::Mark;
use cs_manifest::{OpenEdit, OpenPair};
use cs_mutate::{Edit, Negative};

/// A negative as its edit and its pair without the token that the edit puts, and that token.
#[derive(Clone, Copy)]
pub(crate) struct Opened {
    pub edit: OpenEdit,
    pub pair: OpenPair,
    pub token: u16,
}

/// The negative without its token. None where its edit puts none, or where its pair is another than those that the token makes.
#[inline(always)]
pub(crate) fn open_negative(negative: &Negative) -> Option<Opened>
    ensures opened { IfSome result (IsOpened negative.now) }
    ensures there { Opens negative.now → IsTrue (is_some result) }
{
    let (edit, place, token) = match negative.edit {
        Edit::Insert(place, token) => (OpenEdit::Insert(place), place, token),
        Edit::Replace(place, token) => (OpenEdit::Replace(place), place, token),
        Edit::Delete(_) | Edit::Swap(_) => return None,
    };
    let pair = open_pair(negative, place, token)?;
    Some(Opened { edit, pair, token })
}

// The negative's pair without the token that stands at the place of its edit. None where it isn't in the pair.
#[inline(always)]
fn open_pair(negative: &Negative, place: u32, token: u16) -> Option<OpenPair>
    ensures pair { IfSome result (IsOpenPairOf negative.now place token) }
    ensures there { IsInPair negative.now place token → IsTrue (is_some result) }
{
    if negative.at == place && negative.right == Mark::Token(token) {
        Some(OpenPair::Behind(negative.left))
    } else if negative.at > 0 && negative.at - 1 == place && negative.left == Mark::Token(token) {
        Some(OpenPair::Before(negative.right))
    } else {
        None
    }
}
