//! Compares the texts of answers with texts that were written by hand.
use crate::{Pick, fault_text, sound_text, unsound_text};
use audit_judge::Reason;
use s3_types::Text;
use soundness::Marker;
use std::alloc::{AllocError, Global};
use trace_reader::{Field, TraceFault};

fn is_text(written: Result<String, AllocError>, expected: &str) -> bool {
    match written {
        Ok(text) => text.as_str() == expected,
        Err(_) => false,
    }
}

#[test]
fn sound_runs(rt: HostRuntime) {
    let picks = [
        Pick {
            task: 0,
            attempt: 1,
        },
        Pick {
            task: 12,
            attempt: 0,
        },
    ];
    let with_picks = sound_text(rt.alloc(), 22, 9, Marker::New, &picks);
    let without = sound_text(rt.alloc(), 1, 0, Marker::Absent, &[]);
    assert!(rt;
        is_text(
            with_picks,
            "sound\nlines 22\nchanges 9\nmarker new\npick 0 1\npick 12 0\n"
        )
    );
    assert!(rt; is_text(without, "sound\nlines 1\nchanges 0\nmarker none\n"));
}

fn lost(alloc: Global, path: &str) -> Result<String, AllocError> {
    let path = Text::copied(alloc, path)?;
    unsound_text(alloc, 12, &Reason::Lost(path))
}

#[test]
fn unsound_runs(rt: HostRuntime) {
    let of_path = lost(rt.alloc(), "a/\"b\"\n\u{e9}");
    let of_task = unsound_text(rt.alloc(), 3, &Reason::Missing(7));
    assert!(rt;
        is_text(
            of_path,
            "unsound at line 12: lost \"a/\\\"b\\\"\\n\u{e9}\"\n"
        )
    );
    assert!(rt; is_text(of_task, "unsound at line 3: missing 7\n"));
}

#[test]
fn faults(rt: HostRuntime) {
    let member = fault_text(rt.alloc(), 2, TraceFault::MissingField(Field::Op));
    let plain = fault_text(rt.alloc(), 0, TraceFault::OutOfOrder);
    assert!(rt; is_text(member, "trace fault missing-field op at line 2\n"));
    assert!(rt; is_text(plain, "trace fault out-of-order at line 0\n"));
}
