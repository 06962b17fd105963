//! Command lines, each with what it asks for, by the definition.

use rdb_base::list::NoMemory;
use rdb_runner::command_line::{CommandLine, tested};
use std::alloc::Global;
use std::test::*;

/// Words, and what they ask for.
type Asked<'a> = (&'a [&'a str], &'a str);

const ASKED: [Asked<'static>; 34] = [
    (&["replay", "s", "h"], r#"replay Mvcc 1024 "s" "h" []"#),
    (
        &["replay", "s", "h", "a"],
        r#"replay Mvcc 1024 "s" "h" ["a"]"#,
    ),
    (
        &["replay", "s", "h", "a", "b", "a"],
        r#"replay Mvcc 1024 "s" "h" ["a", "b", "a"]"#,
    ),
    (&["run", "s"], r#"run Mvcc 1024 "s" []"#),
    (&["run", "s", "a", "b"], r#"run Mvcc 1024 "s" ["a", "b"]"#),
    (&["audit", "s", "r"], r#"audit "s" "r""#),
    (&["check", "s"], r#"check "s""#),
    (&["job", "7"], "job 7 false"),
    // Options stand before, between and behind the names, with `=` or without.
    (
        &["replay", "--manager", "mursiw", "s", "h"],
        r#"replay Mursiw 1024 "s" "h" []"#,
    ),
    (
        &["replay", "s", "--manager=mursiw", "h"],
        r#"replay Mursiw 1024 "s" "h" []"#,
    ),
    (
        &["replay", "s", "h", "a", "--manager", "mvcc"],
        r#"replay Mvcc 1024 "s" "h" ["a"]"#,
    ),
    (
        &["replay", "--pages", "3", "s", "h"],
        r#"replay Mvcc 3 "s" "h" []"#,
    ),
    (
        &["run", "s", "a", "--pages=3", "b", "--manager=mursiw"],
        r#"run Mursiw 3 "s" ["a", "b"]"#,
    ),
    (&["job", "--threads", "7"], "job 7 true"),
    (&["job", "7", "--threads"], "job 7 true"),
    // Numbers of the whole range, with leading zeros.
    (&["run", "--pages", "1", "s"], r#"run Mvcc 1 "s" []"#),
    (
        &["run", "--pages", "16384", "s"],
        r#"run Mvcc 16384 "s" []"#,
    ),
    (&["run", "--pages=0001", "s"], r#"run Mvcc 1 "s" []"#),
    (
        &["run", "--pages", "00000000000000000000000016384", "s"],
        r#"run Mvcc 16384 "s" []"#,
    ),
    (&["job", "0"], "job 0 false"),
    (
        &["job", "18446744073709551615"],
        "job 18446744073709551615 false",
    ),
    (
        &["job", "000000000000000000000000000000018446744073709551615"],
        "job 18446744073709551615 false",
    ),
    // `--` ends the options, and names behind it have any form.
    (&["check", "--", "s"], r#"check "s""#),
    (&["check", "s", "--"], r#"check "s""#),
    (&["check", "--", "--"], r#"check "--""#),
    (&["check", "--", "-"], r#"check "-""#),
    (&["audit", "s", "--", "--pages"], r#"audit "s" "--pages""#),
    (
        &["run", "--pages", "2", "--", "s", "--pages=3"],
        r#"run Mvcc 2 "s" ["--pages=3"]"#,
    ),
    (&["job", "--threads", "--", "7"], "job 7 true"),
    // Any other word is a name, an empty one too.
    (&["check", ""], r#"check """#),
    (&["replay", "", "", ""], r#"replay Mvcc 1024 "" "" [""]"#),
    (&["check", "check"], r#"check "check""#),
    (&["check", "s-"], r#"check "s-""#),
    (&["run", "=", "mvcc"], r#"run Mvcc 1024 "=" ["mvcc"]"#),
];

/// Words that are no command line.
const REFUSED: [&[&str]; 56] = [
    // No command.
    &[],
    &[""],
    &["play", "s"],
    &["Check", "s"],
    &["check ", "s"],
    &["--", "check", "s"],
    &["--pages", "3", "run", "s"],
    &["--help"],
    &["-h"],
    // Too few names, or too many.
    &["replay"],
    &["replay", "s"],
    &["run"],
    &["audit", "s"],
    &["audit", "s", "r", "x"],
    &["check"],
    &["check", "--"],
    &["check", "s", "x"],
    &["job"],
    &["job", "--threads"],
    &["job", "7", "7"],
    // No option, or none of this command.
    &["check", "--help"],
    &["check", "-"],
    &["check", "-s"],
    &["check", "---"],
    &["run", "s", "--page", "3"],
    &["run", "s", "--pages3"],
    &["run", "s", "--Pages", "3"],
    &["run", "s", "--threads"],
    &["replay", "s", "h", "--threads"],
    &["audit", "--manager", "mvcc", "s", "r"],
    &["check", "--pages=3", "s"],
    &["check", "--threads", "s"],
    &["job", "--pages", "3", "7"],
    &["job", "--threads=1", "7"],
    // An option twice, in whatever form, also with the same value.
    &["run", "--pages", "3", "--pages", "3", "s"],
    &["run", "--pages=3", "s", "--pages", "4"],
    &["run", "--manager=mvcc", "--manager=mvcc", "s"],
    &["job", "--threads", "7", "--threads"],
    // The next word is the value, whatever it is.
    &["run", "s", "--pages"],
    &["run", "s", "--manager"],
    &["run", "--manager", "--pages", "3", "s"],
    &["run", "--pages", "--", "3", "s"],
    // No manager.
    &["run", "--manager", "MVCC", "s"],
    &["run", "--manager=", "s"],
    // No count of pages.
    &["run", "--pages", "0", "s"],
    &["run", "--pages", "16385", "s"],
    &["run", "--pages", "4294967297", "s"],
    &["run", "--pages", "+3", "s"],
    &["run", "--pages=-3", "s"],
    &["run", "--pages", "", "s"],
    &["run", "--pages", "3 ", "s"],
    // No seed.
    &["job", "18446744073709551616"],
    &["job", "+7"],
    &["job", "--", "-7"],
    &["job", ""],
    &["job", "0x7"],
];

/// A command line in one line.
fn told(alloc: Global, line: &CommandLine<'_>) -> Result<String, NoMemory> {
    match line {
        CommandLine::Replay {
            settings,
            schema,
            schedule,
            clients,
        } => {
            let pages = settings.pages;
            let manager = settings.manager;
            let clients = clients.as_slice();
            format!(in alloc; "replay {manager:?} {pages} {schema:?} {schedule:?} {clients:?}")
        }
        CommandLine::Run {
            settings,
            schema,
            clients,
        } => {
            let pages = settings.pages;
            let manager = settings.manager;
            let clients = clients.as_slice();
            format!(in alloc; "run {manager:?} {pages} {schema:?} {clients:?}")
        }
        CommandLine::Audit { schema, report } => format!(in alloc; "audit {schema:?} {report:?}"),
        CommandLine::Check { schema } => format!(in alloc; "check {schema:?}"),
        CommandLine::Job { seed, threads } => format!(in alloc; "job {seed} {threads}"),
    }
}

/// What these words ask for, in one line, or `none`.
fn asked(alloc: Global, texts: &[&str]) -> Result<String, NoMemory> {
    let mut words = Vec::new(alloc);
    for text in texts {
        words.push(String::from_str(alloc, text)?)?;
    }
    match tested(&words) {
        Some(line) => told(alloc, &line),
        None => String::from_str(alloc, "none"),
    }
}

#[test]
fn each_command_line_asks_for_what_its_words_say(rt: HostRuntime) -> Result<(), Fail> {
    for (words, expected) in ASKED {
        assert_eq!(rt; asked(rt.alloc(), words)?.as_str(), expected);
    }
    Ok(())
}

#[test]
fn what_is_no_command_line_is_refused(rt: HostRuntime) -> Result<(), Fail> {
    for words in REFUSED {
        assert_eq!(rt; asked(rt.alloc(), words)?.as_str(), "none", "{words:?}");
    }
    Ok(())
}

#[test]
fn sixteen_clients_are_the_most(rt: HostRuntime) -> Result<(), Fail> {
    let replay: [&str; 20] = [
        "replay", "s", "h", "1", "2", "3", "4", "5", "6", "7", "8", "9", "10", "11", "12", "13",
        "14", "15", "16", "17",
    ];
    assert_eq!(rt;
        asked(rt.alloc(), &replay[..19])?.as_str(),
        r#"replay Mvcc 1024 "s" "h" ["1", "2", "3", "4", "5", "6", "7", "8", "9", "10", "11", "12", "13", "14", "15", "16"]"#
    );
    assert_eq!(rt; asked(rt.alloc(), &replay)?.as_str(), "none");
    let run: [&str; 20] = [
        "run", "s", "--", "1", "2", "3", "4", "5", "6", "7", "8", "9", "10", "11", "12", "13",
        "14", "15", "16", "17",
    ];
    assert_eq!(rt;
        asked(rt.alloc(), &run[..19])?.as_str(),
        r#"run Mvcc 1024 "s" ["1", "2", "3", "4", "5", "6", "7", "8", "9", "10", "11", "12", "13", "14", "15", "16"]"#
    );
    assert_eq!(rt; asked(rt.alloc(), &run)?.as_str(), "none");
    Ok(())
}
