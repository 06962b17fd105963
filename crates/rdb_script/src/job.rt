//! The generated job: eight clients that sell items and places, drawn from a seed.

ghost use Rattle.std.specs.Prelude.{◌≡◌, ◌++◌, [], codes, decimal, IfOk, OnOk, string_bytes};
ghost use Rattle.std.specs.FinMap as map;
ghost use Rattle.rdb_script.specs.Job.{job_schema, turn_line, turns, rounds, job_schedule, folder_of, job};
ghost use Rattle.rdb_script.specs.JobScripts.{job_script};

use crate::job_script::job_script;
use crate::stream::Stream;
use rdb_base::list::{List, NoMemory};
use rdb_base::memory_files::MemoryFiles;
use std::alloc::Global;

/// How many turns of drawn clients the schedule begins with.
const TURNS: u32 = 4_000;

/// How many rounds of all clients it ends with.
const ROUNDS: u32 = 1_100;

#[tactic(auto, unfolding(crate::specs::Job::job_schema))]
fn job_schema() -> &'static str
    ensures { result.now ≡ job_schema }
{
    "declare database job;\n\nclass Item {\n  string name;\n  uint4 stock;\n  uint8 price;\n  autoid;\n  unique hash<name> byName;\n  tree<stock> byStock;\n  patricia<name> pName;\n  event<update stock> moved;\n};\n\nclass Place {\n  rect<int4> area;\n  string label;\n  autoid;\n  rtree<area> byArea;\n};\n\nclass Sale {\n  uint8 item;\n  uint4 count;\n  int4 day;\n  autoid;\n  tree<day,item> byDay;\n};\n"
}

/// The text with a turn of a client after it.
fn append_turn(mut text: String, client: u32, number: u32) -> Result<String, NoMemory>
    ensures { IfOk result (λ longer. string_bytes longer ≡ string_bytes text ++ turn_line client number) }
{
    if number == 0 {
        write!(text, "{client}\n")?;
        return Ok(text);
    }
    write!(text, "{client}*\n")?;
    Ok(text)
}

/// The text with 4,000 turns that are drawn from the stream after it.
fn append_turns(mut text: String, mut stream: Stream) -> Result<String, NoMemory>
    ensures { IfOk result (λ longer. string_bytes longer ≡ string_bytes text ++ turns 4000 stream.state) }
{
    for _turn in 0..TURNS {
        let client = 1 + stream.draw(8);
        let number = stream.draw(4);
        text = append_turn(text, client, number)?;
    }
    Ok(text)
}

/// The text with 1,100 rounds of all clients after it.
fn append_rounds(mut text: String) -> Result<String, NoMemory>
    ensures { IfOk result (λ longer. string_bytes longer ≡ string_bytes text ++ rounds 1100) }
{
    for _round in 0..ROUNDS {
        text.push_str("1* 2* 3* 4* 5* 6* 7* 8*\n")?;
    }
    Ok(text)
}

/// The schedule of the generated job.
#[tactic(auto, unfolding(crate::specs::Job::job_schedule))]
fn job_schedule(alloc: Global, seed: u64) -> Result<String, NoMemory>
    ensures { IfOk result (λ text. string_bytes text ≡ job_schedule seed) }
{
    append_rounds(append_turns(String::new(alloc), Stream::of(seed))?)
}

/// Adds the script of a client, under its name.
fn put_script(
    alloc: Global,
    files: &mut MemoryFiles,
    seed: u64,
    client: u32,
) -> Result<(), NoMemory>
    ensures { OnOk result (files.new ≡ record files.old { held = map.insert files.old.held (codes "client" ++ decimal client) (job_script seed client) }) }
{
    let name = format!(in alloc; "client{client}")?;
    let text = job_script(alloc, seed, client)?;
    files.put(name.as_str(), text.as_bytes())
}

/// The generated job of a seed, as files in memory none of which was read yet: `schema`, `schedule`, and a script for
/// each of eight clients, `client1` to `client8`. The cost is that of 12,800 items and 1,600 transactions.
pub fn job_files(alloc: Global, seed: u64) -> Result<MemoryFiles, NoMemory>
    ensures { IfOk result (λ files. files ≡ record { held = folder_of map.empty (job seed); failing = []; reads = 0; asked = []; faults = 0 }) }
{
    let mut files = MemoryFiles::new(alloc, List::new(alloc));
    files.put("schema", job_schema().as_bytes())?;
    let schedule = job_schedule(alloc, seed)?;
    files.put("schedule", schedule.as_bytes())?;
    for client in 1..9 {
        put_script(alloc, &mut files, seed, client)?;
    }
    Ok(files)
}
