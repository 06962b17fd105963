//! Copies into memory of their own, for all types that hold lists.

ghost use Rattle.std.specs.Prelude.{◌≡◌, IfOk, IsSome};
ghost use Rattle.rdb_base.specs.Operations.{index_named};

use crate::identity::ConnId;
use crate::journal::{Entry, Story};
use crate::list::NoMemory;
use crate::operation::{Op, Place, Reply};
use crate::text::Text;
use crate::value::{Element, Leaf, Value};

/// What can be copied into memory of its own.
pub trait Duplicate {
    /// An equal value. The cost grows with all that the value holds; each list and text takes one allocation.
    fn duplicate(&self) -> Result<Self, NoMemory>
        ensures { IfOk result (λ copy. copy ≡ self.now) };
}

impl Duplicate for u8 {
    fn duplicate(&self) -> Result<u8, NoMemory> {
        Ok(*self)
    }
}

impl Duplicate for u32 {
    fn duplicate(&self) -> Result<u32, NoMemory> {
        Ok(*self)
    }
}

impl Duplicate for u64 {
    fn duplicate(&self) -> Result<u64, NoMemory> {
        Ok(*self)
    }
}

impl Duplicate for ConnId {
    fn duplicate(&self) -> Result<ConnId, NoMemory> {
        Ok(*self)
    }
}

impl<A: Duplicate + Drop, B: Duplicate + Drop> Duplicate for (A, B) {
    fn duplicate(&self) -> Result<(A, B), NoMemory> {
        Ok((self.0.duplicate()?, self.1.duplicate()?))
    }
}

impl Duplicate for Text {
    fn duplicate(&self) -> Result<Text, NoMemory> {
        self.copy()
    }
}

impl Duplicate for Leaf {
    fn duplicate(&self) -> Result<Leaf, NoMemory> {
        Ok(match self {
            Leaf::Num(number) => Leaf::Num(*number),
            Leaf::Text(text) => Leaf::Text(text.copy()?),
            Leaf::Rect(rect) => Leaf::Rect(*rect),
        })
    }
}

impl Duplicate for Element {
    fn duplicate(&self) -> Result<Element, NoMemory> {
        Ok(match self {
            Element::Leaf(leaf) => Element::Leaf(leaf.duplicate()?),
            Element::Group(leaves) => Element::Group(leaves.copy()?),
        })
    }
}

impl Duplicate for Value {
    fn duplicate(&self) -> Result<Value, NoMemory> {
        Ok(match self {
            Value::Leaf(leaf) => Value::Leaf(leaf.duplicate()?),
            Value::List(elements) => Value::List(elements.copy()?),
            Value::Group(leaves) => Value::Group(leaves.copy()?),
        })
    }
}

impl Duplicate for Place {
    fn duplicate(&self) -> Result<Place, NoMemory> {
        Ok(match self {
            Place::Start => Place::Start,
            Place::End => Place::End,
            Place::At { key, id } => Place::At {
                key: key.copy()?,
                id: *id,
            },
        })
    }
}

// A copy of an operation that looks in an index.
fn copied_lookup(lookup: &Op) -> Result<Op, NoMemory>
    requires { IsSome (index_named lookup.now) }
    ensures { IfOk result (λ copy. copy ≡ lookup.now) }
{
    let class = lookup.class();
    let Some(index) = lookup.index() else {
        unreachable!();
    };
    Ok(match lookup {
        Op::Find { key, .. } => Op::Find {
            class,
            index,
            key: key.copy()?,
        },
        Op::Seek { place, up, .. } => Op::Seek {
            class,
            index,
            place: place.duplicate()?,
            up: *up,
        },
        Op::Area { rect, inside, .. } => Op::Area {
            class,
            index,
            rect: *rect,
            inside: *inside,
        },
        Op::Prefix { text, how, .. } => Op::Prefix {
            class,
            index,
            text: text.copy()?,
            how: *how,
        },
        _ => unreachable!(),
    })
}

impl Duplicate for Op {
    fn duplicate(&self) -> Result<Op, NoMemory> {
        Ok(match self {
            Op::New { class, row, id } => Op::New {
                class: *class,
                row: row.copy()?,
                id: *id,
            },
            Op::Get { class, id } => Op::Get {
                class: *class,
                id: *id,
            },
            Op::Put { class, id, row } => Op::Put {
                class: *class,
                id: *id,
                row: row.copy()?,
            },
            Op::Del { class, id } => Op::Del {
                class: *class,
                id: *id,
            },
            Op::Find { .. } | Op::Seek { .. } | Op::Area { .. } | Op::Prefix { .. } =>
                copied_lookup(self)?,
            Op::Count { class } => Op::Count { class: *class },
        })
    }
}

impl Duplicate for Reply {
    fn duplicate(&self) -> Result<Reply, NoMemory> {
        Ok(match self {
            Reply::Made(id) => Reply::Made(*id),
            Reply::Row(row) => Reply::Row(row.copy()?),
            Reply::Done => Reply::Done,
            Reply::NotFound => Reply::NotFound,
            Reply::Duplicate { index, id } => Reply::Duplicate {
                index: *index,
                id: *id,
            },
            Reply::Ids(ids) => Reply::Ids(ids.copy()?),
            Reply::At { key, id } => Reply::At {
                key: key.copy()?,
                id: *id,
            },
            Reply::End => Reply::End,
            Reply::Count(count) => Reply::Count(*count),
        })
    }
}

impl Duplicate for Story {
    fn duplicate(&self) -> Result<Story, NoMemory> {
        Ok(Story {
            client: self.client,
            number: self.number,
            begun: self.begun,
            snapshot: self.snapshot,
            done: self.done.copy()?,
        })
    }
}

impl Duplicate for Entry {
    fn duplicate(&self) -> Result<Entry, NoMemory> {
        Ok(match self {
            Entry::Commit { story, commit } => Entry::Commit {
                story: story.duplicate()?,
                commit: *commit,
            },
            Entry::Read { story } => Entry::Read {
                story: story.duplicate()?,
            },
            Entry::Abort { story, cause } => Entry::Abort {
                story: story.duplicate()?,
                cause: *cause,
            },
            Entry::Handled {
                client,
                by,
                at,
                finished,
            } => Entry::Handled {
                client: *client,
                by: *by,
                at: *at,
                finished: *finished,
            },
            Entry::Closed { client } => Entry::Closed { client: *client },
        })
    }
}
