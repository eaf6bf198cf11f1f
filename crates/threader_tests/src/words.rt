use crate::runs::{ASSIGNS_ONCE, ITS_TABLE, run};
use std::test::Fail;

/// No word, operands that are missing or too many, options of another command, an option twice, values that are not allowed, words
/// that begin with `-`, and commands that are unknown or not built.
const REFUSED: &str = "
tables
x.c
tables x.c x.c x.c
tables -x.c
tables x.c -x.c
tables -
-tables x.c
x.c tables
table x.c
tables x.c --serial
tables x.c --journal
tables x.c --start x.pred
tables x.c --tree 1
tables x.c --refinements 1
tables x.c --rule og
tables x.c --rule
tables x.c --rule rg --rule rg
tables x.c --facts 3 --facts=3
tables x.c --facts=
tables x.c --facts 0
tables x.c --facts 03
tables x.c --facts -3
tables x.c --facts 65537
tables x.c --jobs 2000001
tables -- x.c --facts 3
verify x.c
verify
verify x.c x.c
verify x.c --facts 0
help
generate 1";

#[test]
fn other_words_get_the_usage_line(rt: HostRuntime) -> Result<(), Fail> {
    for line in REFUSED.split('\n') {
        let (status, written) = run(rt.alloc(), line, ASSIGNS_ONCE)?;
        assert_eq!(rt; status, 2, "{line}");
        let usage = "usage: threader verify|tables|check|replay|generate|bench|help\n";
        assert_eq!(rt; written.as_str(), usage, "{line}");
    }
    Ok(())
}

/// Words that ask for the table of a program with three facts and three instances.
const ACCEPTED: &str = "\
tables x.c
tables -- x.c
tables x.c --
tables --rule rg x.c
tables --rule=rg -- x.c
tables x.c --facts 3 --jobs 3
tables --jobs=2000000 --facts=65536 x.c";

#[test]
fn options_and_operands_follow_in_any_order(rt: HostRuntime) -> Result<(), Fail> {
    for line in ACCEPTED.split('\n') {
        let (status, written) = run(rt.alloc(), line, ASSIGNS_ONCE)?;
        assert_eq!(rt; written.as_str(), ITS_TABLE, "{line}");
        assert_eq!(rt; status, 0, "{line}");
    }
    Ok(())
}

/// Words with limits that are too low for it, and what is not known then.
const TOO_LOW: &str = "\
tables x.c --facts 1 => facts 1
tables x.c --facts=2 => facts 2
tables --jobs 1 x.c => jobs 1
tables --jobs=2 x.c => jobs 2";

#[test]
fn limits_that_are_too_low_are_told(rt: HostRuntime) -> Result<(), Fail> {
    for case in TOO_LOW.split('\n') {
        let (line, unknown) = case.split_once(" => ").ok_or("no limit")?;
        let (status, written) = run(rt.alloc(), line, ASSIGNS_ONCE)?;
        assert_eq!(rt;
            written,
            format!(in rt.alloc(); "UNKNOWN {unknown}\n")?,
            "{line}"
        );
        assert_eq!(rt; status, 4, "{line}");
    }
    Ok(())
}
