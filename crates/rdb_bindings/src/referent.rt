//! What a reply gives the name that its line assigns. It touches nothing but the reply.

ghost use Rattle.std.specs.Prelude.{◌≡◌, IfOk, slice_get};
ghost use Rattle.std.specs.Option.{option_copied, option_map};
ghost use Rattle.rdb_bindings.specs.declared.referent.Referent.TheVariants as referent;
ghost use Rattle.rdb_bindings.specs.Filling.{given, target, origin};

use rdb_base::list::{List, NoMemory};
use rdb_base::operation::{Ids, Place, Reply};
use rdb_base::value::Row;

/// The id that no object has.
const NO_OBJECT: u64 = 0;

/// What a name stands for.
#[derive(Debug, Drop, PartialEq, Eq)]
pub enum Referent {
    /// The object that was made, or the first one that was found.
    Object(u64),
    /// The place in an ordered index that was found, with the object there.
    Found { key: Row, id: u64 },
}

pub type Referents = List<Option<Referent>>;

fn first_of(ids: &Ids) -> Option<Referent>
    ensures { result ≡ option_map referent.Object (slice_get ids.now 0) }
{
    let id = ids.as_slice().first()?;
    Some(Referent::Object(*id))
}

/// What a reply gives a name. Its key alone is copied, if it has one. The cost grows with that key.
pub(crate) fn given(reply: &Reply) -> Result<Option<Referent>, NoMemory>
    ensures { IfOk result (λ found. found ≡ given reply.now) }
{
    Ok(match reply {
        Reply::Made(id) => Some(Referent::Object(*id)),
        Reply::Ids(ids) => first_of(ids),
        Reply::At { key, id } => Some(Referent::Found {
            key: key.copy()?,
            id: *id,
        }),
        Reply::Row(_)
        | Reply::Done
        | Reply::NotFound
        | Reply::Duplicate { .. }
        | Reply::End
        | Reply::Count(_) => None,
    })
}

/// The id of the object that a name stands for. It takes no memory.
pub(crate) fn target(found: Option<&Referent>) -> u64
    ensures { result ≡ target (option_copied found.entry) }
{
    match found {
        Some(Referent::Object(id)) => *id,
        Some(Referent::Found { id, .. }) => *id,
        None => NO_OBJECT,
    }
}

/// The place beyond which there is nothing, going up or down.
fn beyond_all(up: bool) -> Place
    ensures { result ≡ origin up None }
{
    if up { Place::End } else { Place::Start }
}

/// The place that a name stands for. The cost grows with its key, which is copied.
pub(crate) fn origin(up: bool, found: Option<&Referent>) -> Result<Place, NoMemory>
    ensures { IfOk result (λ place. place ≡ origin up (option_copied found.entry)) }
{
    Ok(match found {
        Some(Referent::Found { key, id }) => Place::At {
            key: key.copy()?,
            id: *id,
        },
        Some(Referent::Object(_)) => beyond_all(up),
        None => beyond_all(up),
    })
}
