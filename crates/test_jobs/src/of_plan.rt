// A worked plan, bytes that are none, and printed names.
use ft_plan::{JobFault, JobName, Plan};
use ft_words::ParseError;
use std::alloc::{AllocError, Global};
use std::test::Fail;

/// Two jobs side by side, of which the first has two subjobs.
const WORKED: &[u8] =
    b"job a\nmkdir /a\nstat /a\nsubs\ncommit\njob a1 a\nmkdir /a/p\nstat /a/p\ncommit\n\
        job a2 a\nmkdir /a/q\nstat /a/q\ncommit\njob b\nmkdir /b\nstat /b\ncommit\n";

/// Returns whether these bytes are a plan of so many jobs, or none.
fn is_plan_of(alloc: Global, text: &[u8], jobs: Result<usize, JobFault>) -> bool {
    match Plan::read(alloc, text) {
        Ok(plan) => jobs == Ok(plan.jobs().len()),
        Err(fault) => jobs == Err(fault),
    }
}

#[test]
fn single_calls(rt: HostRuntime) -> Result<(), Fail> {
    let alloc = rt.alloc();
    assert!(rt; is_plan_of(alloc, b"".as_slice(), Err(JobFault::BadPlan)));
    assert!(rt; is_plan_of(alloc, b"commit\n".as_slice(), Err(JobFault::BadPlan)));
    assert!(rt; is_plan_of(alloc, b"job a\ncommit\n".as_slice(), Ok(1)));
    Ok(())
}

#[test]
fn worked_plan(rt: HostRuntime) -> Result<(), Fail> {
    let alloc = rt.alloc();
    assert!(rt; is_plan_of(alloc, WORKED, Ok(4)));
    let opens = b"job a\nopen rc x\nwrite @1 hello\nabort".as_slice();
    assert!(rt; is_plan_of(alloc, opens, Ok(1)));
    let stats = b"job a\nstat x\nwrite @1 hello\nabort".as_slice();
    assert!(rt; is_plan_of(alloc, stats, Err(JobFault::BadPlan)));
    Ok(())
}

/// Returns whether a name is printed as it is read.
fn is_printed(alloc: Global, word: &str) -> Result<bool, AllocError> {
    match JobName::read(alloc, word.as_bytes()) {
        Ok(name) => Ok(format!(in alloc; "{name}")?.as_str() == word),
        Err(ParseError::NoMemory) => Err(AllocError),
        Err(ParseError::Misspelt) => Ok(false),
    }
}

#[test]
fn names_and_faults_are_printed(rt: HostRuntime) -> Result<(), Fail> {
    let alloc = rt.alloc();
    assert!(rt; is_printed(alloc, "a_job-1")?);
    assert_eq!(rt;
        format!(in alloc; "{}", JobFault::BadPlan)?.as_str(),
        "BadPlan"
    );
    Ok(())
}
