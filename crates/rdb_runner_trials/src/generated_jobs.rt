//! The files of the generated job are a schema, and scripts and a schedule for it.

use rdb_base::files::Files;
use rdb_ddl::read;
use rdb_script::{job_files, schedule, script};
use std::test::Fail;

#[test]
fn files_of_the_generated_job_are_read(rt: HostRuntime) -> Result<(), Fail> {
    let alloc = rt.alloc();
    let mut files = job_files(alloc, 7)?;
    let text = files.read(alloc, "schema", 1_000_000)?;
    assert!(rt; text.len() <= 1_000_000);
    let schema = read(alloc, text.as_slice())
        .ok()
        .ok_or("the text is a schema")?;
    let scripts = [
        ("client1", None),
        ("client2", None),
        ("client3", Some(500)),
        ("client4", None),
        ("client5", None),
        ("client6", Some(500)),
        ("client7", None),
        ("client8", None),
    ];
    for (name, stop) in scripts {
        let text = files.read(alloc, name, 1_000_000)?;
        let script = script(alloc, &schema, text.as_slice())?;
        assert_eq!(rt; script.stop, stop);
        assert_eq!(rt; script.units.len(), 200);
    }
    let text = files.read(alloc, "schedule", 1_000_000)?;
    assert_eq!(rt; schedule(alloc, text.as_slice(), 8)?.len(), 12_800);
    Ok(())
}
