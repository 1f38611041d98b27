// A trader's list beside the stand that the trader got.
ghost use Rattle.std.specs.Prelude.{◌≡◌, ◌≤◌, length};
ghost use Rattle.lists.specs.Format.{member};
ghost use Rattle.papers.specs.Paper.{dearer_than};

use lists::list::List;

// The list names the stand.
pub(crate) fn names(list: &List, stand: u16) -> bool
    ensures { result ≡ member stand list.now }
{
    list.stands().any(|listed| listed == stand)
}

// How many stands of a list are dearer than a stand: those before it.
pub(crate) fn dearer_count(list: &List, stand: u16) -> u8
    ensures answer { result ≡ length (dearer_than stand list.now) }
    ensures few { result ≤ length list.now }
{
    let all = list.len() as usize;
    let place = list.stands().position(|listed| listed == stand);
    place.unwrap_or(all) as u8
}
