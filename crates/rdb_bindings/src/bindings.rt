//! What the names of a script stand for as its lines get their replies.
//!
//! | Field | For each line of the script, from 0 at its first |
//! |---|---|
//! | `sources` | the last line above it that assigns the name that it uses |
//! | `referents` | what its last reply gave the name that it assigns |

ghost use Rattle.std.specs.Prelude.{◌≡◌, ◌<◌, length, slice_get, take, Some, OnOk, OnErr, IfOk};
ghost use Rattle.std.specs.Option.{option_and_then, option_copied, option_flatten};
ghost use Rattle.rdb_bindings.specs.Filling.{Answered, filled, lines_answered, lines_of, noted, unanswered};
ghost use Rattle.rdb_bindings.specs.Keeping.{Keeps, referent_at};

use crate::filling::with_referent;
use crate::referent::{Referent, Referents, given};
use crate::survey::{Sources, Survey};
use rdb_base::duplicate::Duplicate;
use rdb_base::list::NoMemory;
use rdb_base::operation::{Op, Reply};
use rdb_script::unit::{ScriptLine, Units};
use std::alloc::Global;

/// What the names of one script stand for. Its lines go by their numbers from 0, through all its transactions, so that each
/// look-up takes the same time however long the script is.
#[derive(Drop)]
pub struct Bindings {
    sources: Sources,
    referents: Referents,
}

impl Bindings {
    /// The bindings of a script no line of which has got a reply. The only error is want of memory. The cost grows with the
    /// script, and with the logarithm of the number of its names for each line.
    pub fn new(alloc: Global, units: &Units) -> Result<Bindings, NoMemory>
        ensures { IfOk result (Keeps (unanswered (lines_of units.now))) }
    {
        let Survey {
            sources,
            referents,
            ..
        } = Survey::of(alloc, units)?;
        Ok(Bindings { sources, referents })
    }

    /// How many lines the script has.
    pub fn lines(&self) -> usize
        ensures { result ≡ length self.now.referents }
    {
        self.referents.len()
    }

    /// Notes the reply to the line of that number, in place of an earlier one. A line that assigns no name needn't be noted.
    /// Where memory is wanting all stays. The cost is constant but for the copy of a place's key.
    pub fn note(&mut self, number: usize, reply: &Reply) -> Result<(), NoMemory>
        requires { number < length self.old.referents }
        ensures ok { OnOk result ((answered : Answered) → Keeps answered self.old → Keeps (noted answered number reply.now) self.new) }
        ensures err { OnErr result (self.new ≡ self.old) }
    {
        let referent = given(reply)?;
        self.referents.set(number, referent);
        Ok(())
    }

    /// The operation that the line of that number asks for by the replies noted so far: the line's own, with the object or the
    /// place that its name stands for. The only error is want of memory. The cost is that of a copy of the operation.
    pub fn fill(&self, number: usize, line: &ScriptLine) -> Result<Op, NoMemory>
        ensures { IfOk result (λ op. (answered : Answered) → Keeps answered self.now →
            slice_get (lines_answered answered) number ≡ Some line.now → op ≡ filled (take number answered) line.now) }
    {
        match &line.from {
            Some(_) => with_referent(self.referent(number), &line.op),
            None => line.op.duplicate(),
        }
    }

    /// What the name that the line of that number uses stands for.
    fn referent(&self, number: usize) -> Option<&Referent>
        ensures { option_copied result ≡ referent_at self.now number }
    {
        let source = self.source(number)?;
        self.referents.as_slice().get(source)?.as_ref()
    }

    fn source(&self, number: usize) -> Option<usize>
        ensures { result ≡ option_flatten (slice_get self.now.sources number) }
    {
        *self.sources.as_slice().get(number)?
    }
}
