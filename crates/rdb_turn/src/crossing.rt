//! Which types of the lock cross threads, whatever its value is: each call here is proved from `T: Send` alone.

ghost use Rattle.std.specs.Thread.{IsSend, IsSync};

use crate::pass::Pass;
use crate::turn::Turn;
use rdb_base::chronicle::Chronicle;

fn is_send<T: Send>(_value: &T)
    ensures { IsSend T.row }
{}

fn is_sync<T: Sync>(_value: &T)
    ensures { IsSync T.row }
{}

/// Where a value may go to another thread, its turn may go there and be shared, and a pass may go there.
pub(crate) fn crosses_threads<T: Chronicle + Send>(turn: &Turn<T>, pass: &Pass<T>) {
    is_send(turn);
    is_sync(turn);
    is_send(pass);
}
