//! The plain database: what every answer is measured by. It keeps its objects in memory and touches nothing else.

ghost use Rattle.std.specs.Prelude.{◌≡◌, ◌<◌, length, IfOk, OnOk, OnErr, slice_get};
ghost use Rattle.rdb_base.specs.declared.operation.Op.{Op};
ghost use Rattle.rdb_base.specs.declared.operation.Op.TheVariants as op;
ghost use Rattle.rdb_base.specs.declared.identity.Kind.{Kind};
ghost use Rattle.std.specs.List.{All};
ghost use Rattle.std.specs.Option.{option_map, option_copied};
ghost use Rattle.rdb_model.specs.Database.{empty, objects_of, row_of, IsInOrder};
ghost use Rattle.rdb_model.specs.Story.{after, IsAfterSome};
ghost use Rattle.rdb_model.specs.Answer.{answer};
ghost use Rattle.rdb_schema.specs.Schemas.{IsSchema};
ghost use Rattle.rdb_model.specs.Fits.{Fits};
ghost use Rattle.rdb_schema.specs.Indexes.{indexes_of};

use crate::clash::find_clash;
use crate::declared::{class_indexes, index_fields};
use crate::keys::copy_key;
use crate::lookups::{ids_with_box, ids_with_key, ids_with_prefix};
use crate::objects::Objects;
use crate::seek::seek;
use rdb_base::journal::Done;
use rdb_base::list::NoMemory;
use rdb_base::operation::{How, Op, Place, Reply};
use rdb_base::text::Text;
use rdb_base::value::{Rect, Row};
use rdb_schema::schema::Schema;
use std::alloc::Global;
use std::marker::Model;

/// A database without indexes, pages or versions. Contracts see, for each class, the pairs of an id and its row; in each class the ids
/// ascend, each once, as `is_in_order` says.
#[derive(Debug, Drop)]
pub struct Db {
    classes: Vec<Objects>,
}

impl Model for Db {
    ghost use Rattle.rdb_model.specs.Database.{Database, IsInOrder};

    ghost Value = { Database };

    ghost view = { λ db. db.classes.items };

    ghost invariant = { λ db. IsInOrder db.classes.items };
}

impl Db {
    /// No object in any of the classes. The cost grows with their number.
    pub fn empty(alloc: Global, classes: u32) -> Result<Db, NoMemory>
        ensures { IfOk result (λ db. db ≡ empty classes) }
    {
        let mut made = Vec::with_capacity(alloc, classes as usize)?;
        for _class in 0..classes {
            made.push(Objects::new(alloc))?;
        }
        Ok(Db { classes: made })
    }

    /// How many classes there are.
    pub fn classes(&self) -> usize
        ensures { result ≡ length self.now }
    {
        self.classes.len()
    }

    /// Does nothing: in each class the ids ascend, each once.
    pub fn is_in_order(&self)
        ensures { IsInOrder self.now }
    {
        let _ = &self.classes;
    }

    /// An equal database. The cost grows with all that its rows hold.
    pub fn copy(&self) -> Result<Db, NoMemory>
        ensures { IfOk result (λ copy. copy ≡ self.now) }
    {
        let classes = copy_classes(*self.classes.allocator(), &self.classes)?;
        Ok(Db { classes })
    }

    /// The id and the row of the object at a place among those of a class, from 0, or None exactly past their end. It takes no memory, and
    /// constant time.
    pub fn object(&self, class: u32, place: usize) -> Option<(u64, &Row)>
        requires { class < length self.now }
        ensures { option_map (λ found. (found.0, found.1.now)) result ≡ slice_get (objects_of self.now class) place }
    {
        match self.classes[class as usize].as_slice().get(place) {
            Some((id, row)) => Some((*id, row)),
            None => None,
        }
    }

    /// The row of the object of an id, lent. The cost grows with the logarithm of the number of the class's objects.
    pub fn row(&self, class: u32, id: u64) -> Option<&Row>
        requires { class < length self.now }
        ensures { option_copied result ≡ row_of (objects_of self.now class) id }
    {
        self.classes[class as usize].row(id)
    }

    /// Does operations one after another, whatever they are told; the replies are dropped. Where memory is wanting the first few of them
    /// are done, and no other. The cost is that of each of the operations.
    pub fn apply_all(&mut self, schema: &Schema, done: &Done) -> Result<(), NoMemory>
        requires fits { All (λ d. Fits schema.now d.0 Kind.ReadWrite) done.now }
        requires classes { length self.old ≡ length schema.now.classes }
        requires is_schema { IsSchema schema.now }
        ensures next { OnOk result (self.new ≡ after schema.now self.old done.now) }
        ensures err { OnErr result (IsAfterSome schema.now self.old done.now self.new) }
        ensures classes { length self.new ≡ length self.old }
    {
        for (op, _) in done.as_slice() {
            let _ = self.apply(schema, op)?;
        }
        Ok(())
    }

    // Makes an object, unless a unique index has its key.
    fn make(&mut self, schema: &Schema, class: u32, row: &Row, id: u64) -> Result<Reply, NoMemory>
        requires class { class < length self.old }
        requires declared { class < length schema.now.classes }
        requires is_schema { IsSchema schema.now }
        ensures reply { IfOk result (λ reply. reply ≡ (answer schema.now self.old (op.New class row.now id)).0) }
        ensures next { OnOk result (self.new ≡ (answer schema.now self.old (op.New class row.now id)).1) }
        ensures err { OnErr result (self.new ≡ self.old) }
    {
        let objects = &mut self.classes[class as usize];
        let indexes = class_indexes(schema, class);
        match find_clash(indexes, row, objects.as_slice(), None) {
            Some((index, id)) => Ok(Reply::Duplicate { index, id }),
            None => {
                objects.put(id, row.copy()?)?;
                Ok(Reply::Made(id))
            }
        }
    }

    // Gives an object a row, unless there is no such object, or a unique index has its key at another.
    fn replace(
        &mut self,
        schema: &Schema,
        class: u32,
        id: u64,
        row: &Row,
    ) -> Result<Reply, NoMemory>
        requires class { class < length self.old }
        requires declared { class < length schema.now.classes }
        requires is_schema { IsSchema schema.now }
        ensures reply { IfOk result (λ reply. reply ≡ (answer schema.now self.old (op.Put class id row.now)).0) }
        ensures next { OnOk result (self.new ≡ (answer schema.now self.old (op.Put class id row.now)).1) }
        ensures err { OnErr result (self.new ≡ self.old) }
    {
        let objects = &mut self.classes[class as usize];
        if objects.row(id).is_none() {
            return Ok(Reply::NotFound);
        }
        let indexes = class_indexes(schema, class);
        match find_clash(indexes, row, objects.as_slice(), Some(id)) {
            Some((index, id)) => Ok(Reply::Duplicate { index, id }),
            None => {
                objects.put(id, row.copy()?)?;
                Ok(Reply::Done)
            }
        }
    }

    // Takes an object away, if it is there.
    fn delete(&mut self, schema: &Schema, class: u32, id: u64) -> Reply
        requires class { class < length self.old }
        ensures reply { result ≡ (answer schema.now self.old (op.Del class id)).0 }
        ensures next { self.new ≡ (answer schema.now self.old (op.Del class id)).1 }
    {
        let objects = &mut self.classes[class as usize];
        if objects.row(id).is_none() {
            return Reply::NotFound;
        }
        objects.remove(id);
        Reply::Done
    }

    // The row of an object, copied.
    fn get(&self, schema: &Schema, class: u32, id: u64) -> Result<Reply, NoMemory>
        requires class { class < length self.now }
        ensures reply { IfOk result (λ reply. reply ≡ (answer schema.now self.now (op.Get class id)).0) }
    {
        match self.classes[class as usize].row(id) {
            Some(row) => Ok(Reply::Row(row.copy()?)),
            None => Ok(Reply::NotFound),
        }
    }

    // The ids of the objects that have a key.
    fn find(&self, schema: &Schema, class: u32, index: u32, key: &Row) -> Result<Reply, NoMemory>
        requires class { class < length self.now }
        requires declared { class < length schema.now.classes }
        requires index { index < length (indexes_of schema.now class) }
        ensures { IfOk result (λ reply. reply ≡ (answer schema.now self.now (op.Find class index key.now)).0) }
    {
        let objects = self.classes[class as usize].as_slice();
        let fields = index_fields(schema, class, index);
        let ids = ids_with_key(*self.classes.allocator(), objects, fields, key)?;
        Ok(Reply::Ids(ids))
    }

    // The next pair of an index.
    fn seek(
        &self,
        schema: &Schema,
        class: u32,
        index: u32,
        place: &Place,
        up: bool,
    ) -> Result<Reply, NoMemory>
        requires class { class < length self.now }
        requires declared { class < length schema.now.classes }
        requires index { index < length (indexes_of schema.now class) }
        ensures { IfOk result (λ reply. reply ≡ (answer schema.now self.now (op.Seek class index place.now up)).0) }
    {
        let objects = self.classes[class as usize].as_slice();
        let fields = index_fields(schema, class, index);
        match seek(objects, fields, place, up) {
            Some((id, row)) => Ok(Reply::At {
                key: copy_key(*self.classes.allocator(), fields, row)?,
                id: *id,
            }),
            None => Ok(Reply::End),
        }
    }

    // The ids of the objects whose box lies in a box, or overlaps it.
    fn area(
        &self,
        schema: &Schema,
        class: u32,
        index: u32,
        rect: &Rect,
        inside: bool,
    ) -> Result<Reply, NoMemory>
        requires class { class < length self.now }
        requires declared { class < length schema.now.classes }
        requires index { index < length (indexes_of schema.now class) }
        ensures { IfOk result (λ reply. reply ≡ (answer schema.now self.now (op.Area class index rect.now inside)).0) }
    {
        let objects = self.classes[class as usize].as_slice();
        let fields = index_fields(schema, class, index);
        let ids = ids_with_box(*self.classes.allocator(), objects, fields, rect, inside)?;
        Ok(Reply::Ids(ids))
    }

    // The ids of the objects whose text is related to a text as prefixes are.
    fn prefix(
        &self,
        schema: &Schema,
        class: u32,
        index: u32,
        text: &Text,
        how: How,
    ) -> Result<Reply, NoMemory>
        requires class { class < length self.now }
        requires declared { class < length schema.now.classes }
        requires index { index < length (indexes_of schema.now class) }
        ensures { IfOk result (λ reply. reply ≡ (answer schema.now self.now (op.Prefix class index text.now how)).0) }
    {
        let objects = self.classes[class as usize].as_slice();
        let fields = index_fields(schema, class, index);
        let ids = ids_with_prefix(*self.classes.allocator(), objects, fields, text, how)?;
        Ok(Reply::Ids(ids))
    }

    // How many objects a class has.
    fn count(&self, schema: &Schema, class: u32) -> Reply
        requires { class < length self.now }
        ensures { result ≡ (answer schema.now self.now (op.Count class)).0 }
    {
        Reply::Count(self.classes[class as usize].len() as u64)
    }

    /// Does one operation, and answers it. An operation of a transaction that only reads fits under reading and writing too. The cost of
    /// `Get`, and of a write of a class without unique indexes but for the moving of objects with greater ids, grows with the logarithm of
    /// the number of the class's objects; that of the others with their number.
    pub fn apply(&mut self, schema: &Schema, op: &Op) -> Result<Reply, NoMemory>
        requires fits { Fits schema.now op.now Kind.ReadWrite }
        requires classes { length self.old ≡ length schema.now.classes }
        requires is_schema { IsSchema schema.now }
        ensures reply { IfOk result (λ reply. reply ≡ (answer schema.now self.old op.now).0) }
        ensures next { OnOk result (self.new ≡ (answer schema.now self.old op.now).1) }
        ensures err { OnErr result (self.new ≡ self.old) }
    {
        match op {
            Op::New { class, row, id } => self.make(schema, *class, row, *id),
            Op::Get { class, id } => self.get(schema, *class, *id),
            Op::Put { class, id, row } => self.replace(schema, *class, *id, row),
            Op::Del { class, id } => Ok(self.delete(schema, *class, *id)),
            Op::Find { class, index, key } => self.find(schema, *class, *index, key),
            Op::Seek {
                class,
                index,
                place,
                up,
            } => self.seek(schema, *class, *index, place, *up),
            Op::Area {
                class,
                index,
                rect,
                inside,
            } => self.area(schema, *class, *index, rect, *inside),
            Op::Prefix {
                class,
                index,
                text,
                how,
            } => self.prefix(schema, *class, *index, text, *how),
            Op::Count { class } => Ok(self.count(schema, *class)),
        }
    }
}

// Copies of the objects of each class.
fn copy_classes(alloc: Global, classes: &[Objects]) -> Result<Vec<Objects>, NoMemory>
    ensures { IfOk result (λ copies. copies.items ≡ classes.now) }
{
    let mut copies = Vec::with_capacity(alloc, classes.len())?;
    for objects in classes {
        copies.push(objects.copy()?)?;
    }
    Ok(copies)
}
