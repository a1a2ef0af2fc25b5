//! Reads lines of traces that were written by hand: each fault with lines that show it, and lines
//! of each kind.
use crate::{Field, TraceFault, TraceLine, TraceStage, read_line};
use path_keys::S3Path;
use s3_types::{Text, let_go};
use soundness::Keeps;
use std::alloc::{AllocError, Global};

const START: TraceStage = TraceStage {
    tasks: None,
    attempted: false,
    running: false,
};

const WITH_JOB: TraceStage = TraceStage {
    tasks: Some(1),
    attempted: false,
    running: false,
};

const WITH_ATTEMPT: TraceStage = TraceStage {
    tasks: Some(1),
    attempted: true,
    running: false,
};

const RUNNING: TraceStage = TraceStage {
    tasks: Some(1),
    attempted: true,
    running: true,
};

const FAULTY: [(TraceStage, TraceFault, &str); 51] = [
    (START, TraceFault::NotJson, ""),
    (START, TraceFault::NotJson, "{"),
    (START, TraceFault::NotJson, "[]"),
    (WITH_JOB, TraceFault::MissingField(Field::Op), "{}"),
    (WITH_JOB, TraceFault::WrongKind(Field::Op), r#"{"op":1}"#),
    (START, TraceFault::UnknownOp, r#"{"op":"Put"}"#),
    (START, TraceFault::OutOfOrder, r#"{"op":"Commit"}"#),
    (START, TraceFault::OutOfOrder, r#"{"op":"GetObject"}"#),
    (WITH_JOB, TraceFault::OutOfOrder, r#"{"op":"Job"}"#),
    (WITH_JOB, TraceFault::OutOfOrder, r#"{"op":"File"}"#),
    (RUNNING, TraceFault::OutOfOrder, r#"{"op":"Attempt"}"#),
    (RUNNING, TraceFault::OutOfOrder, r#"{"op":"File"}"#),
    (RUNNING, TraceFault::OutOfOrder, r#"{"op":"Object"}"#),
    (
        START,
        TraceFault::MissingField(Field::Dest),
        r#"{"keeps":"all","op":"Job","tasks":1}"#,
    ),
    (
        START,
        TraceFault::WrongKind(Field::Dest),
        r#"{"dest":1,"op":"Job"}"#,
    ),
    (
        START,
        TraceFault::WrongKind(Field::Dest),
        r#"{"dest":"s3a://lake","op":"Job"}"#,
    ),
    (
        START,
        TraceFault::MissingField(Field::Keeps),
        r#"{"dest":"s3a://lake/out","op":"Job","tasks":1}"#,
    ),
    (
        START,
        TraceFault::WrongKind(Field::Keeps),
        r#"{"dest":"s3a://lake/out","keeps":"some","op":"Job","tasks":1}"#,
    ),
    (
        START,
        TraceFault::MissingField(Field::Tasks),
        r#"{"dest":"s3a://lake/out","keeps":"all","op":"Job"}"#,
    ),
    (
        START,
        TraceFault::WrongKind(Field::Tasks),
        r#"{"dest":"s3a://lake/out","keeps":"all","op":"Job","tasks":"1"}"#,
    ),
    (
        START,
        TraceFault::WrongKind(Field::Tasks),
        r#"{"dest":"s3a://lake/out","keeps":"all","op":"Job","tasks":1.0}"#,
    ),
    (
        START,
        TraceFault::WrongKind(Field::Tasks),
        r#"{"dest":"s3a://lake/out","keeps":"all","op":"Job","tasks":-0}"#,
    ),
    (
        START,
        TraceFault::WrongKind(Field::Tasks),
        r#"{"dest":"s3a://lake/out","keeps":"all","op":"Job","tasks":4294967296}"#,
    ),
    (
        WITH_JOB,
        TraceFault::MissingField(Field::Task),
        r#"{"attempt":0,"op":"Attempt"}"#,
    ),
    (
        WITH_JOB,
        TraceFault::WrongKind(Field::Task),
        r#"{"attempt":0,"op":"Attempt","task":1}"#,
    ),
    (
        WITH_JOB,
        TraceFault::MissingField(Field::Attempt),
        r#"{"op":"Attempt","task":0}"#,
    ),
    (
        WITH_JOB,
        TraceFault::WrongKind(Field::Attempt),
        r#"{"attempt":4294967296,"op":"Attempt","task":0}"#,
    ),
    (
        WITH_ATTEMPT,
        TraceFault::MissingField(Field::Path),
        r#"{"etags":[],"op":"File"}"#,
    ),
    (
        WITH_ATTEMPT,
        TraceFault::WrongKind(Field::Path),
        r#"{"op":"File","path":""}"#,
    ),
    (
        WITH_ATTEMPT,
        TraceFault::WrongKind(Field::Path),
        r#"{"op":"File","path":"a/"}"#,
    ),
    (
        WITH_ATTEMPT,
        TraceFault::WrongKind(Field::Path),
        r#"{"op":"File","path":"a//b"}"#,
    ),
    (
        WITH_ATTEMPT,
        TraceFault::WrongKind(Field::Path),
        r#"{"op":"File","path":"a/_b"}"#,
    ),
    (
        WITH_ATTEMPT,
        TraceFault::WrongKind(Field::Path),
        r#"{"op":"File","path":".a/b"}"#,
    ),
    (
        WITH_ATTEMPT,
        TraceFault::MissingField(Field::Etags),
        r#"{"op":"File","path":"a"}"#,
    ),
    (
        WITH_ATTEMPT,
        TraceFault::WrongKind(Field::Etags),
        r#"{"etags":[1],"op":"File","path":"a"}"#,
    ),
    (
        WITH_JOB,
        TraceFault::MissingField(Field::Bucket),
        r#"{"etags":[],"key":"out/a","op":"Object"}"#,
    ),
    (
        WITH_JOB,
        TraceFault::WrongKind(Field::Bucket),
        r#"{"bucket":1,"etags":[],"key":"out/a","op":"Object"}"#,
    ),
    (
        RUNNING,
        TraceFault::MissingField(Field::Effect),
        r#"{"bucket":"lake","etag":"x","key":"out/a","op":"PutObject"}"#,
    ),
    (
        RUNNING,
        TraceFault::WrongKind(Field::Effect),
        r#"{"bucket":"lake","effect":"yes","op":"PutObject"}"#,
    ),
    (
        RUNNING,
        TraceFault::WrongKind(Field::Effect),
        r#"{"bucket":"lake","effect":null,"op":"DeleteObject"}"#,
    ),
    (
        RUNNING,
        TraceFault::MissingField(Field::Key),
        r#"{"bucket":"lake","effect":false,"op":"DeleteObject"}"#,
    ),
    (
        RUNNING,
        TraceFault::WrongKind(Field::Key),
        r#"{"bucket":"lake","effect":true,"key":1,"op":"DeleteObject"}"#,
    ),
    (
        RUNNING,
        TraceFault::MissingField(Field::Etag),
        r#"{"bucket":"lake","effect":true,"key":"out/a","op":"PutObject"}"#,
    ),
    (
        RUNNING,
        TraceFault::WrongKind(Field::Etag),
        r#"{"bucket":"lake","effect":true,"etag":1,"key":"out/a","op":"PutObject"}"#,
    ),
    (
        RUNNING,
        TraceFault::MissingField(Field::Source),
        r#"{"bucket":"lake","effect":true,"key":"out/a","op":"CopyObject"}"#,
    ),
    (
        RUNNING,
        TraceFault::WrongKind(Field::Source),
        r#"{"bucket":"lake","effect":true,"op":"CopyObject","source":1}"#,
    ),
    (
        RUNNING,
        TraceFault::MissingField(Field::Keys),
        r#"{"bucket":"lake","effect":true,"op":"DeleteObjects"}"#,
    ),
    (
        RUNNING,
        TraceFault::WrongKind(Field::Keys),
        r#"{"bucket":"lake","effect":true,"keys":"out/a","op":"DeleteObjects"}"#,
    ),
    (
        RUNNING,
        TraceFault::MissingField(Field::Parts),
        r#"{"bucket":"lake","effect":true,"key":"out/a","op":"CompleteMultipartUpload"}"#,
    ),
    (
        RUNNING,
        TraceFault::WrongKind(Field::Parts),
        r#"{"bucket":"lake","effect":true,"key":"out/a","op":"CompleteMultipartUpload","parts":[]}"#,
    ),
    (
        RUNNING,
        TraceFault::WrongKind(Field::Parts),
        r#"{"bucket":"lake","effect":true,"key":"out/a","op":"CompleteMultipartUpload","parts":[{"part":1}]}"#,
    ),
];

const GOOD: [(TraceStage, &str, &str); 14] = [
    (
        START,
        r#"{"committer":"magic","dest":"s3a://lake/out/","job":"j1","keeps":"partitions","mode":"append","op":"Job","tasks":4294967295}"#,
        "job lake out Partitions 4294967295",
    ),
    (
        START,
        r#"{"dest":"s3a://lake/a/b","keeps":"all","op":"Job","tasks":0}"#,
        "job lake a/b Everything 0",
    ),
    (
        START,
        r#"{"dest":"s3a://lake/out","keeps":"none","op":"Job","tasks":1}"#,
        "job lake out Nothing 1",
    ),
    (
        WITH_JOB,
        r#"{"attempt":4294967295,"op":"Attempt","task":0}"#,
        "attempt 0 4294967295",
    ),
    (
        WITH_ATTEMPT,
        r#"{"etags":["x","y"],"op":"File","path":"a=1/b_.c"}"#,
        "file a=1/b_.c x,y,",
    ),
    (
        WITH_JOB,
        r#"{"bucket":"lake","etags":["x"],"key":"out/_old","op":"Object"}"#,
        "object lake out/_old x,",
    ),
    (WITH_JOB, r#"{"op":"Commit"}"#, "commit"),
    (
        WITH_JOB,
        r#"{"bucket":"lake","effect":true,"etag":"x","key":"out/a","length":5,"op":"PutObject"}"#,
        "put lake out/a x,",
    ),
    (
        RUNNING,
        r#"{"bucket":"lake","effect":true,"key":"out/a","op":"CompleteMultipartUpload","parts":[{"etag":"x","part":1},{"etag":"y","part":2}]}"#,
        "put lake out/a x,y,",
    ),
    (
        RUNNING,
        r#"{"bucket":"lake","effect":true,"key":"out/b","op":"CopyObject","source":"out/a"}"#,
        "copy lake out/a out/b",
    ),
    (
        RUNNING,
        r#"{"bucket":"lake","effect":true,"key":"out/a","op":"DeleteObject"}"#,
        "delete lake out/a,",
    ),
    (
        RUNNING,
        r#"{"bucket":"lake","effect":true,"keys":["out/a","out/b"],"op":"DeleteObjects"}"#,
        "delete lake out/a,out/b,",
    ),
    (
        RUNNING,
        r#"{"bucket":"lake","effect":false,"error":"NoSuchKey","keys":[],"op":"DeleteObjects"}"#,
        "still",
    ),
    (RUNNING, r#"{"op":"ListObjectsV2"}"#, "still"),
];

fn fault_of(alloc: Global, stage: TraceStage, line: &[u8]) -> Option<TraceFault> {
    match read_line(alloc, stage, line) {
        Ok(said) => {
            let_go(said);
            None
        }
        Err(fault) => Some(fault),
    }
}

#[test]
fn faults(rt: HostRuntime) -> Result<(), AllocError> {
    let alloc = rt.alloc();
    for (stage, fault, line) in FAULTY {
        let found = fault_of(alloc, stage, line.as_bytes());
        assert_eq!(rt; found, Some(fault), "{line}");
    }
    assert_eq!(rt;
        fault_of(alloc, START, b"{\"op\":\"\xff\"}"),
        Some(TraceFault::NotJson)
    );
    let longest = vec![in alloc; b' '; 8_388_608]?;
    assert_eq!(rt;
        fault_of(alloc, START, longest.as_slice()),
        Some(TraceFault::NotJson)
    );
    let too_long = vec![in alloc; b' '; 8_388_609]?;
    assert_eq!(rt;
        fault_of(alloc, START, too_long.as_slice()),
        Some(TraceFault::TooLong)
    );
    Ok(())
}

/// Adds words and the texts of a list, each with a comma after it.
fn tell(text: &mut String, words: &[&str], list: &[Text]) -> Result<(), AllocError> {
    for word in words {
        text.push_str(*word)?;
        text.push_str(" ")?;
    }
    for item in list {
        text.push_str(item.as_str())?;
        text.push_str(",")?;
    }
    Ok(())
}

fn tell_job(text: &mut String, dest: &S3Path, keeps: Keeps, tasks: u32) -> Result<(), AllocError> {
    let bucket = dest.bucket().as_text().as_str();
    let key = dest.key().as_str();
    write!(text, "job {bucket} {key} {keeps:?} {tasks}")
}

fn tell_line(text: &mut String, line: &TraceLine) -> Result<(), AllocError> {
    match line {
        TraceLine::Job { dest, keeps, tasks } => tell_job(text, dest, *keeps, *tasks),
        TraceLine::Attempt { task, attempt } => write!(text, "attempt {task} {attempt}"),
        TraceLine::File { path, etags } => {
            tell(text, &["file", path.as_str()], etags.as_slice())
        }
        TraceLine::Object { bucket, key, etags } => {
            tell(
                text,
                &["object", bucket.as_str(), key.as_str()],
                etags.as_slice(),
            )
        }
        TraceLine::Commit => text.push_str("commit"),
        TraceLine::Put { bucket, key, etags } => {
            tell(
                text,
                &["put", bucket.as_str(), key.as_str()],
                etags.as_slice(),
            )
        }
        TraceLine::Copy {
            bucket,
            source,
            key,
        } => {
            write!(
                text,
                "copy {} {} {}",
                bucket.as_str(),
                source.as_str(),
                key.as_str()
            )
        }
        TraceLine::Delete { bucket, keys } => {
            tell(text, &["delete", bucket.as_str()], keys.as_slice())
        }
        TraceLine::Still => text.push_str("still"),
    }
}

/// Adds the contents of a line, or its fault.
fn tell_read(
    alloc: Global,
    text: &mut String,
    stage: TraceStage,
    line: &str,
) -> Result<(), AllocError> {
    match read_line(alloc, stage, line.as_bytes()) {
        Ok(said) => {
            let written = tell_line(text, &said);
            let_go(said);
            written
        }
        Err(fault) => write!(text, "{fault:?}"),
    }
}

#[test]
fn lines(rt: HostRuntime) -> Result<(), AllocError> {
    for (stage, line, want) in GOOD {
        let mut text = String::new(rt.alloc());
        tell_read(rt.alloc(), &mut text, stage, line)?;
        assert_eq!(rt; text.as_str(), want);
    }
    Ok(())
}
