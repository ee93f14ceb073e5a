use super::{FIRST, Outside, STEADY, answer};
use crate::Status;
use std::test::Fail;

#[test]
fn reads_fail(rt: HostRuntime) -> Result<(), Fail> {
    for call in 0..7 {
        let outside = Outside {
            failing_read: Some(call),
            ..STEADY
        };
        let (written, ended) = answer(&rt, rt.alloc(), FIRST.as_bytes(), "", &outside)?;
        if call < 6 {
            assert!(rt; written.is_empty(), "{call}");
            assert_eq!(rt; ended, Status::ReadFault, "{call}");
        } else {
            assert_eq!(rt; written.as_slice(), b"x^2-1\n".as_slice());
            assert_eq!(rt; ended, Status::Done);
        }
    }
    Ok(())
}

#[test]
fn writes_fail(rt: HostRuntime) -> Result<(), Fail> {
    let rows = [
        (100, 3, Some(0), "", Status::WriteFault),
        (100, 3, Some(1), "x^2", Status::WriteFault),
        (100, 3, Some(2), "x^2-1\n", Status::WriteFault),
        (100, 3, Some(3), "x^2-1\n", Status::Done),
        (4, 8, None, "x^2-", Status::WriteFault),
    ];
    for (room, chunk, failing_write, text, status) in rows {
        let outside = Outside {
            failing_read: None,
            room,
            chunk,
            failing_write,
        };
        let (written, ended) = answer(&rt, rt.alloc(), FIRST.as_bytes(), "", &outside)?;
        assert_eq!(rt; written.as_slice(), text.as_bytes());
        assert_eq!(rt; ended, status, "{text}");
    }
    Ok(())
}

#[test]
fn the_input_ends_anywhere(rt: HostRuntime) -> Result<(), Fail> {
    let rows = [
        (0, 3, "line 1: vars expected\n", Status::Refused),
        (4, 5, "line 1: variable count\n", Status::Refused),
        (6, 12, "line 2: ring expected\n", Status::Refused),
        (13, 14, "", Status::Done),
        (15, 16, "line 3: unknown command\n", Status::Refused),
        (17, 17, "line 3: syntax at 4\n", Status::Refused),
        (18, 18, "line 3: syntax at 5\n", Status::Refused),
        (19, 19, "", Status::Done),
        (20, 20, "line 3: syntax at 7\n", Status::Refused),
        (21, 22, "", Status::Done),
        (23, 24, "line 4: unknown command\n", Status::Refused),
        (25, 25, "line 4: syntax at 4\n", Status::Refused),
        (26, 26, "line 4: syntax at 5\n", Status::Refused),
        (27, 27, "", Status::Done),
        (28, 28, "line 4: syntax at 7\n", Status::Refused),
        (29, 30, "", Status::Done),
        (31, 32, "line 5: unknown command\n", Status::Refused),
        (33, 36, "line 5: argument count\n", Status::Refused),
        (37, 38, "x^2-1\n", Status::Done),
    ];
    for (first, last, text, status) in rows {
        for length in first..=last {
            let mut bytes = FIRST.as_bytes().to_vec(rt.alloc())?;
            bytes.truncate(length);
            let (written, ended) = answer(&rt, rt.alloc(), &bytes, "", &STEADY)?;
            assert_eq!(rt; written.as_slice(), text.as_bytes(), "{length}");
            assert_eq!(rt; ended, status, "{length}");
        }
    }
    Ok(())
}

#[test]
fn sessions_are_malformed(rt: HostRuntime) -> Result<(), Fail> {
    let rows = [
        (
            b"vars a b c d e f g h i j k l m n o p\n".as_slice(),
            "line 1: variable count\n",
        ),
        (b"vars x x\n".as_slice(), "line 1: repeated name\n"),
        (b"vars 1x\n".as_slice(), "line 1: bad name\n"),
        (b"vars mul\n".as_slice(), "line 1: reserved name\n"),
        (
            b"vars abcdefghijklmnopqrstuvwxyzabcdefg\n".as_slice(),
            "line 1: bad name\n",
        ),
        (b"vars x\nring mod\n".as_slice(), "line 2: ring expected\n"),
        (b"vars x\nring mod 1\n".as_slice(), "line 2: bad modulus\n"),
        (
            b"vars x\nring Z\na = x^-1\n".as_slice(),
            "line 3: syntax at 7\n",
        ),
        (
            b"vars x\nring Z\na = x^\n".as_slice(),
            "line 3: syntax at 7\n",
        ),
        (
            b"vars x\nring Z\na == x\n".as_slice(),
            "line 3: syntax at 4\n",
        ),
        (
            b"vars x\nring Z\na = 2 x\n".as_slice(),
            "line 3: syntax at 7\n",
        ),
        (
            b"vars x\nring Z\na = \xFF\n".as_slice(),
            "line 3: syntax at 5\n",
        ),
        (
            b"vars x\nring Z\na = \0\n".as_slice(),
            "line 3: syntax at 5\n",
        ),
    ];
    for (session, text) in rows {
        let (written, ended) = answer(&rt, rt.alloc(), session, "", &STEADY)?;
        assert_eq!(rt; written.as_slice(), text.as_bytes(), "{text}");
        assert_eq!(rt; ended, Status::Refused, "{text}");
    }
    Ok(())
}

#[test]
fn sessions_are_odd(rt: HostRuntime) -> Result<(), Fail> {
    let rows = [
        (
            "vars x\nring Z\na = x ^ 2 * x\nshow a\n",
            "",
            "x^3\n",
            Status::Done,
        ),
        (
            "vars x\nring Z\na = x+1\nb = x-1\nmul a b\r",
            "",
            "x^2-1\n",
            Status::Done,
        ),
        (FIRST, "--workers 64 --places 2", "x^2-1\n", Status::Done),
        (FIRST, "--workers 0", "", Status::BadWords),
    ];
    for (session, words, text, status) in rows {
        let (written, ended) = answer(&rt, rt.alloc(), session.as_bytes(), words, &STEADY)?;
        assert_eq!(rt; written.as_slice(), text.as_bytes(), "{session}");
        assert_eq!(rt; ended, status, "{session}");
    }
    Ok(())
}
