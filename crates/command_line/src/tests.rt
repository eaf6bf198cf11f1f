use super::*;
use std::alloc::{AllocError, Global};
use std::test::Fail;

/// Words, and what they ask for; `-` stands where nothing is given.
const ASKED: &str = "\
verify q.c => Verify(\"q.c\") false false Rg None 4096 200000 200 200
tables q.c => Tables(\"q.c\", None) false false Rg None 4096 200000 200 200
tables q.c p => Tables(\"q.c\", Some(\"p\")) false false Rg None 4096 200000 200 200
check q.c a => Check(\"q.c\", \"a\") false false Rg None 4096 200000 200 200
replay q.c s => Replay(\"q.c\", \"s\") false false Rg None 4096 200000 200 200
generate 1 => Generate(1) false false Rg None 4096 200000 200 200
bench 250 => Bench(250) false false Rg None 4096 200000 200 200
help => Help false false Rg None 4096 200000 200 200
verify q.c --serial --journal --rule og --start p --facts 1 --jobs 2 --refinements 0 --tree 4 => Verify(\"q.c\") true true Og Some(\"p\") 1 2 0 4
verify --tree=1000 --refinements=10000 --jobs=2000000 --facts=65536 --start=p --rule=rg --journal --serial q.c => Verify(\"q.c\") true true Rg Some(\"p\") 65536 2000000 10000 1000
verify --facts=1 --serial -- q.c => Verify(\"q.c\") true false Rg None 1 200000 200 200
tables --rule rg q.c --facts 7 p --jobs=8 => Tables(\"q.c\", Some(\"p\")) false false Rg None 7 8 200 200
tables --rule og q.c => Tables(\"q.c\", None) false false Og None 4096 200000 200 200
verify --start --serial q.c => Verify(\"q.c\") false false Rg Some(\"--serial\") 4096 200000 200 200
verify --start -- q.c => Verify(\"q.c\") false false Rg Some(\"--\") 4096 200000 200 200
verify --start=-p q.c => Verify(\"q.c\") false false Rg Some(\"-p\") 4096 200000 200 200
verify --start= q.c => Verify(\"q.c\") false false Rg Some(\"\") 4096 200000 200 200
verify --start=a=b q.c => Verify(\"q.c\") false false Rg Some(\"a=b\") 4096 200000 200 200
tables -- -q.c --facts => Tables(\"-q.c\", Some(\"--facts\")) false false Rg None 4096 200000 200 200
tables q.c -- -- => Tables(\"q.c\", Some(\"--\")) false false Rg None 4096 200000 200 200
help -- => Help false false Rg None 4096 200000 200 200
check verify help => Check(\"verify\", \"help\") false false Rg None 4096 200000 200 200";

/// No command, operands of no command, options of another, an option twice, a flag with a value, a setting without one, and values
/// that are no numbers, or none within the limits.
const REFUSED: &str = "\

verify
verify q.c p
tables
tables q.c p r
check q.c
check q.c a b
replay q.c
generate
generate 1 2
help q.c
table q.c
q.c tables
--serial verify q.c
tables q.c --serial
tables q.c --journal
tables q.c --start p
tables q.c --refinements 1
tables q.c --tree 1
check q.c a --rule rg
replay q.c s --facts 1
generate 1 --jobs 1
help --rule rg
verify q.c --serial --serial
verify q.c --rule rg --rule rg
verify q.c --start a --start=b
verify q.c --facts 1 --facts=1
verify q.c --jobs 1 --jobs 1
verify q.c --refinements 1 --refinements 1
verify q.c --tree 1 --tree 1
verify q.c --serial=
verify q.c --journal=1
verify q.c --facts
verify q.c --start
verify q.c --facts --serial
verify q.c --rule RG
verify q.c --rule=
verify q.c --facts=
verify q.c --facts 0
verify q.c --facts 01
verify q.c --facts +1
verify q.c --facts -1
verify q.c --facts 1x
verify q.c --facts 65537
verify q.c --jobs 0
verify q.c --jobs 2000001
verify q.c --refinements 10001
verify q.c --tree 0
verify q.c --tree 1001
verify q.c --tree 4294967297
verify q.c --tree 170141183460469231731687303715884105728
generate 0
generate 251
bench 0
bench 01
verify -q.c
verify - q.c
verify q.c -
verify q.c --fact 1
verify q.c ---
verify q.c --=1
verify q.c -- --serial";

fn words_of(alloc: Global, line: &str) -> Result<Vec<String>, AllocError> {
    let mut words = Vec::new(alloc);
    if line.is_empty() {
        return Ok(words);
    }
    for word in line.split(' ') {
        words.push(String::from_str(alloc, word)?)?;
    }
    Ok(words)
}

fn shown(alloc: Global, request: &Request<'_>) -> Result<String, Fail> {
    let options = &request.options;
    let limits = options.limits;
    let flags = format!(in alloc;
        "{:?} {} {} {:?} {:?}",
        request.work, options.serial, options.journal, options.rule, options.start
    )?;
    let text = format!(in alloc;
        "{flags} {} {} {} {}",
        limits.facts, limits.jobs, limits.refinements, limits.tree
    )?;
    Ok(text)
}

#[test]
fn requests_are_read(rt: HostRuntime) -> Result<(), Fail> {
    for case in ASKED.split('\n') {
        let (line, wanted) = case.split_once(" => ").ok_or("no request")?;
        let words = words_of(rt.alloc(), line)?;
        let request = read_words(&words).ok_or("refused")?;
        let text = shown(rt.alloc(), &request)?;
        assert_eq!(rt; text.as_str(), wanted, "{line}");
    }
    Ok(())
}

#[test]
fn all_else_is_refused(rt: HostRuntime) -> Result<(), Fail> {
    for line in REFUSED.split('\n') {
        let words = words_of(rt.alloc(), line)?;
        assert!(rt; read_words(&words).is_none(), "{line}");
    }
    Ok(())
}

#[test]
fn laws_are_called() {
    each_option_stands_once();
    words_ask_for_one();
}
